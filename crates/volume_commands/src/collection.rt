ghost use Rattle.std.specs.Prelude.{◌≡◌, ◌≢◌, ◌≤◌, IfOk, OnOk, OnErr, Ok, Err, IsErrOf, is_err};
ghost use Rattle.std.specs.Io.KnownBytes.{Appends};
ghost use Rattle.lsvd_fault.specs.Faults.{Counts, CountsOne};
ghost use Rattle.volume_server.specs.History.{most_steps};
ghost use Rattle.volume_owner.specs.Acts.{moment_of};
ghost use Rattle.volume_owner.specs.Collecting.{CollectAllOf};
ghost use Rattle.volume_owner.specs.Owner.{IsIdle};
ghost use Rattle.volume_commands.specs.Collecting.{CollectsMounted, IsCollectedText, collected_text};
ghost use Rattle.volume_commands.specs.Output.{AppendsFront, TellsEnd};
ghost use Rattle.volume_commands.specs.World.{IsConstant};

use crate::error::CommandError;
use arrayvec::ArrayString;
use itoa::Buffer;
use lsvd_device::Disk;
use lsvd_fault::{Failed, Sink, write_all};
use lsvd_objstore::Store;
use refusals::Refusal;
use std::alloc::Global;
use vol_core::Volume;
use vol_recover::Mounted;
use volume_owner::{Collected, Owner};

// Collects a volume that was mounted, and tells what was done. The volume is given back.
pub(crate) fn collect_mounted<D: Disk, S: Store, O: Sink>(
    alloc: Global,
    out: &mut O,
    store: &mut S,
    mounted: Mounted<D, S::Receipt>,
) -> (Volume<D, S::Receipt>, Result<(), CommandError>)
    requires idle { IsIdle mounted.volume.volume }
    requires steps { mounted.volume.steps ≤ most_steps }
    ensures told { TellsEnd IsCollectedText result.1 (O.contents out.old) (O.contents out.new) }
    ensures collects { OnOk result.1 (CollectsMounted S.Receipt.state mounted (S.state store.old)
        (moment_of result.0 (S.state store.new)) (O.contents out.old) (O.contents out.new)) }
    ensures refused { (why : Refusal) → IsErrOf result.1 (CommandError.Refused why) → ⊥ }
    ensures fault { IsErrOf result.1 CommandError.Fault
        → IsConstant (λ disk. (D.state disk).faults) → IsConstant (λ store. (S.state store).faults)
        → CountsOne (O.faults out.old) (O.faults out.new) }
    ensures no_fault { result.1 ≢ Err CommandError.Fault → O.faults out.new ≡ O.faults out.old }
{
    let (volume, collected) = collect(alloc, mounted.volume, store);
    let collected = match collected {
        Ok(collected) => collected,
        Err(error) => return (volume, Err(error)),
    };
    if let Err(Failed) = tell_collected(out, &collected) {
        return (volume, Err(CommandError::Fault));
    }
    (volume, Ok(()))
}

// Collects a volume. It is given back.
fn collect<D: Disk, S: Store>(
    alloc: Global,
    volume: Volume<D, S::Receipt>,
    store: &mut S,
) -> (Volume<D, S::Receipt>, Result<Collected, CommandError>)
    requires idle { IsIdle volume.volume }
    requires steps { volume.steps ≤ most_steps }
    ensures collects { IfOk result.1 (λ collected. CollectAllOf S.Receipt.state (Ok collected) volume result.0
        (S.state store.old) (S.state store.new)) }
    ensures refused { (why : Refusal) → IsErrOf result.1 (CommandError.Refused why) → ⊥ }
    ensures fault { IsErrOf result.1 CommandError.Fault
        → IsConstant (λ disk. (D.state disk).faults) → IsConstant (λ store. (S.state store).faults) → ⊥ }
{
    let _ = volume.disk();
    let mut owner = Owner::new(volume);
    let collected = owner.collect_all(alloc, store);
    let volume = owner.into_volume();
    let _ = volume.disk();
    match collected {
        Ok(collected) => (volume, Ok(collected)),
        Err(error) => (volume, Err(error.into())),
    }
}

// The most bytes of the lines that tell a collection.
const LINES_BYTES: usize = 64;

// The lines that tell what was collected, as one write.
fn tell_collected<O: Sink>(out: &mut O, collected: &Collected) -> Result<(), Failed>
    ensures ok { OnOk result (Appends (O.contents out.old) (O.contents out.new)
        (collected_text collected.now)) }
    ensures front { OnErr result (AppendsFront (collected_text collected.now) (O.contents out.old)
        (O.contents out.new)) }
    ensures count { Counts (is_err result) (O.faults out.old) (O.faults out.new) }
{
    let mut lines = ArrayString::<LINES_BYTES>::new();
    lines.push_str("copied ");
    lines.push_str(Buffer::new().format(collected.copied));
    lines.push_str("\nremoved ");
    lines.push_str(Buffer::new().format(collected.removed));
    lines.push_str("\n");
    write_all(out, lines.as_bytes())
}
