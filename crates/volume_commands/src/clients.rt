ghost use Rattle.std.specs.Prelude.{◌≡◌, ◌≢◌, ◌≤◌, IfOk, OnOk, OnErr, Err, IsErrOf, is_err};
ghost use Rattle.std.specs.Io.KnownBytes.{Appends};
ghost use Rattle.lsvd_fault.specs.Faults.{Counts, CountsOne};
ghost use Rattle.volume_server.specs.History.{most_steps};
ghost use Rattle.volume_owner.specs.Acts.{moment_of};
ghost use Rattle.volume_owner.specs.Owner.{IsIdle};
ghost use Rattle.volume_commands.specs.Output.{AppendsFront, TellsEnd};
ghost use Rattle.volume_commands.specs.Serving.{Drains, IsServingText, ServesMounted, judged};
ghost use Rattle.volume_commands.specs.Serving.{mounted_line, writes_line};
ghost use Rattle.volume_commands.specs.World.{CountsNone, CountsOneOf, IsConstant};
ghost use Rattle.volume_server.specs.Serving.{listener_told, link_told};

use crate::error::CommandError;
use crate::world::World;
use arrayvec::ArrayString;
use itoa::Buffer;
use lsvd_device::Disk;
use lsvd_fault::{Failed, Sink, write_all};
use lsvd_listen::Listener;
use lsvd_objstore::Store;
use read_cache::ReadCache;
use refusals::Refusal;
use std::alloc::Global;
use vol_core::Volume;
use vol_recover::Mounted;
use volume_owner::Owner;
use volume_server::{LaneEnd, serve_volume};

// How many blocks of objects a server keeps in memory: 16 MiB of them.
const CACHE_BLOCKS: usize = 256;

// Begins to listen, and serves a volume that was mounted. The volume is given back.
pub(crate) fn serve_mounted<W: World>(
    alloc: Global,
    socket: &str,
    sessions: u64,
    world: &mut W,
    out: &mut W::Out,
    store: &mut W::Store,
    mounted: Mounted<W::Disk, <W::Store as Store>::Receipt>,
) -> (
    Volume<W::Disk, <W::Store as Store>::Receipt>,
    Result<(), CommandError>,
)
    requires idle { IsIdle mounted.volume.volume }
    requires steps { mounted.volume.steps ≤ most_steps }
    ensures told { TellsEnd IsServingText result.1 (W.Out.contents out.old) (W.Out.contents out.new) }
    ensures serves { OnOk result.1 (ServesMounted W.Store.Receipt.state
        (listener_told W.Clients.given W.Clients.closed W.Clients.faults)
        (λ clients. W.Clients.coming clients)
        (link_told W.Clients.Link.remaining W.Clients.Link.contents W.Clients.Link.held
        W.Clients.Link.Source.faults)
        sessions (W.clients_at world.old socket.now) mounted (W.Store.state store.old)
        (moment_of result.0 (W.Store.state store.new)) (W.Out.contents out.old) (W.Out.contents out.new)) }
    ensures refused { (why : Refusal) → IsErrOf result.1 (CommandError.Refused why) → ⊥ }
    ensures fault { IsErrOf result.1 CommandError.Fault → IsConstant (λ disk. (W.Disk.state disk).faults)
        → IsConstant (λ store. (W.Store.state store).faults)
        → IsConstant W.Clients.faults → CountsOneOf (W.faults world.old) (W.faults world.new)
        (W.Out.faults out.old) (W.Out.faults out.new) }
    ensures no_fault { result.1 ≢ Err CommandError.Fault
        → CountsNone (W.faults world.old) (W.faults world.new)
        (W.Out.faults out.old) (W.Out.faults out.new) }
{
    let mut clients = match world.listen(socket) {
        Ok(clients) => clients,
        Err(error) => return (mounted.volume, Err(error.into())),
    };
    let served = serve_clients(alloc, mounted, &mut clients, store, sessions, out);
    drop(clients);
    served
}

// Tells that a volume was mounted, serves it until the last session has ended, and drains it and tells that
// then. The volume is given back.
fn serve_clients<D: Disk, S: Store, L: Listener, O: Sink>(
    alloc: Global,
    mounted: Mounted<D, S::Receipt>,
    clients: &mut L,
    store: &mut S,
    sessions: u64,
    out: &mut O,
) -> (Volume<D, S::Receipt>, Result<(), CommandError>)
    requires idle { IsIdle mounted.volume.volume }
    requires steps { mounted.volume.steps ≤ most_steps }
    ensures told { TellsEnd IsServingText result.1 (O.contents out.old) (O.contents out.new) }
    ensures serves { OnOk result.1 (ServesMounted S.Receipt.state
        (listener_told L.given L.closed L.faults)
        (λ clients. L.coming clients)
        (link_told L.Link.remaining L.Link.contents L.Link.held L.Link.Source.faults)
        sessions (L.coming clients.old) mounted (S.state store.old)
        (moment_of result.0 (S.state store.new)) (O.contents out.old) (O.contents out.new)) }
    ensures refused { (why : Refusal) → IsErrOf result.1 (CommandError.Refused why) → ⊥ }
    ensures fault { IsErrOf result.1 CommandError.Fault
        → IsConstant (λ disk. (D.state disk).faults) → IsConstant (λ store. (S.state store).faults)
        → IsConstant L.faults → CountsOne (O.faults out.old) (O.faults out.new) }
    ensures no_fault { result.1 ≢ Err CommandError.Fault → O.faults out.new ≡ O.faults out.old }
{
    let Ok(cache) = ReadCache::new(alloc, CACHE_BLOCKS) else {
        return (mounted.volume, Err(CommandError::OutOfMemory));
    };
    if let Err(Failed) = tell_mounted(out, mounted.entries, mounted.number) {
        drop(cache);
        return (mounted.volume, Err(CommandError::Fault));
    }
    let closing = serve_volume(alloc, mounted.volume, cache, clients, store, sessions);
    let (volume, drained) = drain(alloc, closing.volume, store);
    let entries = match drained {
        Ok(entries) => entries,
        Err(error) => return (volume, Err(error)),
    };
    if let Err(Failed) = tell_writes(out, entries) {
        return (volume, Err(CommandError::Fault));
    }
    (volume, judge(closing.lane.end))
}

// A server is done where it has served all its clients, or no more come; it is not where its listener failed.
fn judge(end: LaneEnd) -> Result<(), CommandError>
    ensures { result ≡ judged end }
{
    match end {
        LaneEnd::Counted | LaneEnd::Closed => Ok(()),
        LaneEnd::Failed => Err(CommandError::Fault),
    }
}

// Drains a volume, and answers how many entries its history has. The volume is given back.
fn drain<D: Disk, S: Store>(
    alloc: Global,
    volume: Volume<D, S::Receipt>,
    store: &mut S,
) -> (Volume<D, S::Receipt>, Result<u64, CommandError>)
    requires idle { IsIdle volume.volume }
    requires steps { volume.steps ≤ most_steps }
    ensures drains { IfOk result.1 (λ entries. Drains S.Receipt.state entries
        (moment_of volume (S.state store.old)) (moment_of result.0 (S.state store.new))) }
    ensures refused { (why : Refusal) → IsErrOf result.1 (CommandError.Refused why) → ⊥ }
    ensures fault { IsErrOf result.1 CommandError.Fault
        → IsConstant (λ disk. (D.state disk).faults) → IsConstant (λ store. (S.state store).faults) → ⊥ }
{
    let _ = volume.disk();
    let mut owner = Owner::new(volume);
    let drained = owner.drain(alloc, store);
    let volume = owner.into_volume();
    let _ = volume.disk();
    match drained {
        Ok(drained) => (volume, Ok(drained.entries)),
        Err(error) => (volume, Err(error.into())),
    }
}

// The most bytes of a line that tells a mount or its end.
const LINE_BYTES: usize = 64;

// The line that tells a volume that was mounted, as one write.
fn tell_mounted<O: Sink>(out: &mut O, entries: u64, number: u64) -> Result<(), Failed>
    ensures ok { OnOk result (Appends (O.contents out.old) (O.contents out.new)
        (mounted_line entries number)) }
    ensures front { OnErr result (AppendsFront (mounted_line entries number) (O.contents out.old)
        (O.contents out.new)) }
    ensures count { Counts (is_err result) (O.faults out.old) (O.faults out.new) }
{
    let mut line = ArrayString::<LINE_BYTES>::new();
    line.push_str("mounted ");
    line.push_str(Buffer::new().format(entries));
    line.push_str(" ");
    line.push_str(Buffer::new().format(number));
    line.push_str("\n");
    write_all(out, line.as_bytes())
}

// The line that tells how many entries the history has at the end, as one write.
fn tell_writes<O: Sink>(out: &mut O, entries: u64) -> Result<(), Failed>
    ensures ok { OnOk result (Appends (O.contents out.old) (O.contents out.new) (writes_line entries)) }
    ensures front { OnErr result (AppendsFront (writes_line entries) (O.contents out.old)
        (O.contents out.new)) }
    ensures count { Counts (is_err result) (O.faults out.old) (O.faults out.new) }
{
    let mut line = ArrayString::<LINE_BYTES>::new();
    line.push_str("writes ");
    line.push_str(Buffer::new().format(entries));
    line.push_str("\n");
    write_all(out, line.as_bytes())
}
