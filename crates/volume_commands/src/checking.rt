ghost use Rattle.std.specs.Prelude.{◌≡◌, ◌≢◌, ◌⊎◌, ◌++◌, IfOk, IfSome, OnOk, Err, IsErrOf};
ghost use Rattle.lsvd_fault.specs.Faults.{CountsOne};
ghost use Rattle.stopped_volume.specs.Store.{TellsBytes};
ghost use Rattle.vol_check.specs.Report.{IsCheckRefused};
ghost use Rattle.vol_check.specs.declared.error.CheckError.TheVariants as CheckError;
ghost use Rattle.volume_commands.specs.Checking.{Checks, ChecksStore, RefusesCheck, StandsAgain};
ghost use Rattle.volume_commands.specs.Checking.{TellsCheck, TellsChecked};
ghost use Rattle.volume_commands.specs.Checking.{check_text, ended_by, missing_words, number_words};
ghost use Rattle.volume_commands.specs.World.{CountsNone, CountsOneOf, IsConstant};

use crate::error::CommandError;
use crate::report::Report;
use crate::world::World;
use command_line::CheckRequest;
use itoa::Buffer;
use lsvd_fault::{Failed, Sink, write_all};
use lsvd_objstore::Store;
use refusals::Refusal;
use std::alloc::{AllocError, Global};
use uuid::Uuid;
use vol_check::{CheckReport, ObjectOfLevel, check};

/// Checks what the store has of the volume that is asked for, and writes seven lines to `out`: its uuid, the
/// checkpoints that holds name, its checkpoints, its last object, and the objects that are stranded, unneeded
/// and missing. Only names, headers and rows are read, and nothing is changed. The store may be served
/// meanwhile: then an object that was removed between may be told as missing.
///
/// `Missing` comes where the last list is not empty. A volume whose super object, newest epoch, holds or
/// newest objects are bad is `Refused`, and nothing is written then. `Fault` comes where a call of the world
/// failed, or of the store that it gave, or of `out`; `Memory` where memory ran out.
pub fn answer_check<W: World>(
    alloc: Global,
    request: &CheckRequest<'_>,
    world: &mut W,
    out: &mut W::Out,
) -> Report
    ensures told { TellsCheck result (W.Out.contents out.old) (W.Out.contents out.new) }
    ensures checks { (result ≡ Report.Done) ⊎ (result ≡ Report.Missing)
        → Checks W.tells W.Store.Receipt.state request.now
        (record { disks = W.disk_at world.old; stores = W.store_at world.old })
        (record { disks = W.disk_at world.new; stores = W.store_at world.new })
        result (W.Out.contents out.old) (W.Out.contents out.new) }
    ensures why { (why : Refusal) → result ≡ Report.Refused why
        → RefusesCheck W.tells W.Store.Receipt.state request.now
        (record { disks = W.disk_at world.old; stores = W.store_at world.old })
        (record { disks = W.disk_at world.new; stores = W.store_at world.new }) why }
    ensures disks { W.disk_at world.new ≡ W.disk_at world.old }
    ensures back { StandsAgain W.tells (W.store_at world.old request.now.store.now)
        (W.store_at world.new request.now.store.now) }
    ensures fault { result ≡ Report.Fault → IsConstant (λ store. (W.Store.state store).faults)
        → CountsOneOf (W.faults world.old) (W.faults world.new) (W.Out.faults out.old)
        (W.Out.faults out.new) }
    ensures no_fault { result ≢ Report.Fault → CountsNone (W.faults world.old) (W.faults world.new)
        (W.Out.faults out.old) (W.Out.faults out.new) }
{
    match check_volume(alloc, request, world, out) {
        Ok(ended) => ended,
        Err(CommandError::Refused(why)) => Report::Refused(why),
        Err(CommandError::Fault) => Report::Fault,
        Err(CommandError::OutOfMemory) => Report::Memory,
    }
}

// Checks the volume with the store that the world gives, which then has it again.
fn check_volume<W: World>(
    alloc: Global,
    request: &CheckRequest<'_>,
    world: &mut W,
    out: &mut W::Out,
) -> Result<Report, CommandError>
    ensures told { TellsChecked result (W.Out.contents out.old) (W.Out.contents out.new) }
    ensures checks { IfOk result (λ ended. Checks W.tells W.Store.Receipt.state request.now
        (record { disks = W.disk_at world.old; stores = W.store_at world.old })
        (record { disks = W.disk_at world.new; stores = W.store_at world.new })
        ended (W.Out.contents out.old) (W.Out.contents out.new)) }
    ensures why { (why : Refusal) → IsErrOf result (CommandError.Refused why)
        → RefusesCheck W.tells W.Store.Receipt.state request.now
        (record { disks = W.disk_at world.old; stores = W.store_at world.old })
        (record { disks = W.disk_at world.new; stores = W.store_at world.new }) why }
    ensures disks { W.disk_at world.new ≡ W.disk_at world.old }
    ensures back { StandsAgain W.tells (W.store_at world.old request.now.store.now)
        (W.store_at world.new request.now.store.now) }
    ensures fault { IsErrOf result CommandError.Fault → IsConstant (λ store. (W.Store.state store).faults)
        → CountsOneOf (W.faults world.old) (W.faults world.new) (W.Out.faults out.old)
        (W.Out.faults out.new) }
    ensures no_fault { result ≢ Err CommandError.Fault → CountsNone (W.faults world.old) (W.faults world.new)
        (W.Out.faults out.old) (W.Out.faults out.new) }
{
    let mut store = world.store_to_read(request.store)?;
    let checked = check_in(alloc, request.volume, out, &mut store);
    world.close_store(request.store, store);
    checked
}

// Checks the volume in a store, and writes what was found.
fn check_in<S: Store, O: Sink>(
    alloc: Global,
    uuid: Uuid,
    out: &mut O,
    store: &mut S,
) -> Result<Report, CommandError>
    ensures told { TellsChecked result (O.contents out.old) (O.contents out.new) }
    ensures checks { IfOk result (λ ended. ChecksStore S.Receipt.state uuid (S.state store.old).objects ended
        (O.contents out.old) (O.contents out.new)) }
    ensures why { TellsBytes S.Receipt.state → (why : Refusal) → IsErrOf result (CommandError.Refused why)
        → IfSome (S.state store.old).objects (λ objects.
        IsCheckRefused uuid objects (CheckError.Refused why)) }
    ensures same { (S.state store.new).objects ≡ (S.state store.old).objects }
    ensures fault { IsErrOf result CommandError.Fault → IsConstant (λ store. (S.state store).faults)
        → CountsOne (O.faults out.old) (O.faults out.new) }
    ensures no_fault { result ≢ Err CommandError.Fault → O.faults out.new ≡ O.faults out.old }
{
    let found = check(alloc, store, uuid)?;
    let text = text_of(alloc, &found)?;
    let ended = ended_by(found.missing.as_slice());
    drop(found);
    match write_all(out, text.as_slice()) {
        Ok(()) => Ok(ended),
        Err(Failed) => Err(CommandError::Fault),
    }
}

// How a run ends that found these objects missing.
fn ended_by(missing: &[ObjectOfLevel]) -> Report
    ensures { result ≡ ended_by missing.now }
{
    if missing.is_empty() {
        Report::Done
    } else {
        Report::Missing
    }
}

// The seven lines of what was found.
fn text_of(alloc: Global, found: &CheckReport) -> Result<Vec<u8>, AllocError>
    ensures { IfOk result (λ text. text.items ≡ check_text found.now) }
{
    let mut text = Vec::new(alloc);
    let mut uuid = Uuid::encode_buffer();
    add(&mut text, "volume ")?;
    add(&mut text, found.uuid.hyphenated().encode_lower(&mut uuid))?;
    add_numbers(&mut text, "\nholds", found.holds.as_slice())?;
    add_numbers(&mut text, "\ncheckpoints", found.checkpoints.as_slice())?;
    add(&mut text, "\nlast ")?;
    add(&mut text, Buffer::new().format(found.last))?;
    add_numbers(&mut text, "\nstranded", found.stranded.as_slice())?;
    add_numbers(&mut text, "\nunneeded", found.unneeded.as_slice())?;
    add_missing(&mut text, "\nmissing", found.missing.as_slice())?;
    add(&mut text, "\n")?;
    Ok(text)
}

// Adds a word and these numbers, each after a space.
fn add_numbers(text: &mut Vec<u8>, word: &str, numbers: &[u64]) -> Result<(), AllocError>
    ensures { OnOk result (text.new.items ≡ text.old.items ++ word.now ++ number_words numbers.now) }
{
    add(text, word)?;
    for number in numbers {
        add(text, " ")?;
        add(text, Buffer::new().format(*number))?;
    }
    Ok(())
}

// Adds a word and the level and the number of each of these objects, each after a space.
fn add_missing(text: &mut Vec<u8>, word: &str, missing: &[ObjectOfLevel]) -> Result<(), AllocError>
    ensures { OnOk result (text.new.items ≡ text.old.items ++ word.now ++ missing_words missing.now) }
{
    add(text, word)?;
    for object in missing {
        add(text, " ")?;
        add(text, Buffer::new().format(object.level))?;
        add(text, ":")?;
        add(text, Buffer::new().format(object.number))?;
    }
    Ok(())
}

// Adds a word.
fn add(text: &mut Vec<u8>, word: &str) -> Result<(), AllocError>
    ensures { OnOk result (text.new.items ≡ text.old.items ++ word.now) }
{
    text.extend_from_slice(word.as_bytes())
}
