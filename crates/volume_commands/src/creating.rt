ghost use Rattle.std.specs.Prelude.{◌≡◌, ◌≢◌, ◌≤◌, ◌^◌, ℕ, IsTrue, IsSome, IfSome, IfOk, OnOk, OnErr, Err};
ghost use Rattle.std.specs.Prelude.{IsErrOf, is_err, length, take};
ghost use Rattle.std.specs.Io.KnownBytes.{Appends};
ghost use Rattle.lsvd_base.specs.Limits.{is_within_limits};
ghost use Rattle.lsvd_device.specs.Device.{IsDisk};
ghost use Rattle.lsvd_fault.specs.Faults.{Counts, CountsOne};
ghost use Rattle.lsvd_objstore.specs.Objects.{found};
ghost use Rattle.commit_slot.specs.Slots.{log_of};
ghost use Rattle.lsvd_names.specs.Names.{super_name};
ghost use Rattle.command_line.specs.Create.{sizes_of};
ghost use Rattle.volume_commands.specs.Creating.{IsUuidFor, CreatesOn, CreatesCache, CreatesFor, Creates};
ghost use Rattle.volume_commands.specs.Creating.{IsThere, RefusesToCreate, TellsCreation, created_line};
ghost use Rattle.volume_commands.specs.World.{CountsNone, CountsOneOf, IsConstant, bytes_with};
ghost use Rattle.volume_commands.specs.World.{GivesBack, IsGivenBack};

use crate::closing::let_go;
use crate::error::CommandError;
use crate::report::Report;
use crate::world::World;
use arrayvec::ArrayString;
use command_line::CreateRequest;
use commit_slot::LOG_START;
use lsvd_base::SECTOR_BYTES;
use lsvd_device::Disk;
use lsvd_fault::{Failed, Sink, write_all};
use lsvd_objstore::Store;
use refusals::Refusal;
use std::alloc::Global;
use super_recovery::has_super;
use uuid::{Builder, Uuid};
use vol_recover::create;

/// Creates the volume that is asked for, whose sizes are in their limits (a condition), and writes its uuid
/// to `out`, in a line of its own. The store and the cache stand at their paths again when it ends.
///
/// The refusal `Exists` comes where the store has a super object of the volume, and nothing was changed then;
/// `Fault` where a call of the world failed, or of the store and the disk that it gave, or of `out`; `Memory`
/// where memory ran out. The first call that fails ends it.
pub fn answer_create<W: World>(
    alloc: Global,
    request: &CreateRequest<'_>,
    world: &mut W,
    out: &mut W::Out,
) -> Report
    requires { IsTrue (is_within_limits (sizes_of request.now)) }
    ensures told { TellsCreation request.now result (W.Out.contents out.old) (W.Out.contents out.new) }
    ensures creates { result ≡ Report.Done → Creates W.tells request.now
        (record { disks = W.disk_at world.old; stores = W.store_at world.old })
        (record { disks = W.disk_at world.new; stores = W.store_at world.new })
        (W.Out.contents out.old) (W.Out.contents out.new) }
    ensures why { (why : Refusal) → result ≡ Report.Refused why → RefusesToCreate W.tells request.now
        (record { disks = W.disk_at world.old; stores = W.store_at world.old })
        (record { disks = W.disk_at world.new; stores = W.store_at world.new }) why }
    ensures back { GivesBack W.tells request.now.store.now request.now.cache.now
        (record { disks = W.disk_at world.old; stores = W.store_at world.old })
        (record { disks = W.disk_at world.new; stores = W.store_at world.new }) }
    ensures fault { result ≡ Report.Fault → IsConstant (λ disk. (W.Disk.state disk).faults)
        → IsConstant (λ store. (W.Store.state store).faults)
        → CountsOneOf (W.faults world.old) (W.faults world.new) (W.Out.faults out.old)
        (W.Out.faults out.new) }
    ensures no_fault { result ≢ Report.Fault → CountsNone (W.faults world.old) (W.faults world.new)
        (W.Out.faults out.old) (W.Out.faults out.new) }
{
    let uuid = match create_volume(alloc, request, world) {
        Ok(uuid) => uuid,
        Err(CommandError::Refused(why)) => return Report::Refused(why),
        Err(CommandError::Fault) => return Report::Fault,
        Err(CommandError::OutOfMemory) => return Report::Memory,
    };
    match tell_created(out, uuid) {
        Ok(()) => Report::Done,
        Err(Failed) => Report::Fault,
    }
}

// Creates a volume with the store that the world gives, which then has it again, and answers its uuid.
fn create_volume<W: World>(
    alloc: Global,
    request: &CreateRequest<'_>,
    world: &mut W,
) -> Result<Uuid, CommandError>
    requires { IsTrue (is_within_limits (sizes_of request.now)) }
    ensures why { (why : Refusal) → IsErrOf result (CommandError.Refused why)
        → RefusesToCreate W.tells request.now
        (record { disks = W.disk_at world.old; stores = W.store_at world.old })
        (record { disks = W.disk_at world.new; stores = W.store_at world.new }) why }
    ensures creates { IfOk result (λ uuid. CreatesFor W.tells request.now uuid
        (record { disks = W.disk_at world.old; stores = W.store_at world.old })
        (record { disks = W.disk_at world.new; stores = W.store_at world.new })) }
    ensures back { GivesBack W.tells request.now.store.now request.now.cache.now
        (record { disks = W.disk_at world.old; stores = W.store_at world.old })
        (record { disks = W.disk_at world.new; stores = W.store_at world.new }) }
    ensures fault { IsErrOf result CommandError.Fault
        → IsConstant (λ disk. (W.Disk.state disk).faults) → IsConstant (λ store. (W.Store.state store).faults)
        → CountsOne (W.faults world.old) (W.faults world.new) }
    ensures no_fault { result ≢ Err CommandError.Fault → W.faults world.new ≡ W.faults world.old }
{
    let uuid = uuid_for(request, world)?;
    let mut store = world.store(request.store, true)?;
    let created = create_in(alloc, request, uuid, world, &mut store);
    world.close_store(request.store, store);
    created?;
    Ok(uuid)
}

// Creates a volume in a store, with a cache that the world makes and that goes back to it. Whether there is
// a volume already is asked before its cache is made, since what a cache held is lost then.
fn create_in<W: World>(
    alloc: Global,
    request: &CreateRequest<'_>,
    uuid: Uuid,
    world: &mut W,
    store: &mut W::Store,
) -> Result<(), CommandError>
    requires { IsTrue (is_within_limits (sizes_of request.now)) }
    ensures why { (why : Refusal) → IsErrOf result (CommandError.Refused why)
        → IsThere uuid why (W.Store.state store.old).objects (W.Store.state store.new).objects
        (W.disk_at world.old request.now.cache.now) (W.disk_at world.new request.now.cache.now) }
    ensures creates { OnOk result (CreatesCache W.tells request.now uuid
        (W.disk_at world.new request.now.cache.now)
        (W.Store.state store.old).objects (W.Store.state store.new).objects) }
    ensures back { IsGivenBack W.tells (W.disk_at world.old request.now.cache.now)
        (W.disk_at world.new request.now.cache.now) }
    ensures fault { IsErrOf result CommandError.Fault
        → IsConstant (λ disk. (W.Disk.state disk).faults) → IsConstant (λ store. (W.Store.state store).faults)
        → CountsOne (W.faults world.old) (W.faults world.new) }
    ensures no_fault { result ≢ Err CommandError.Fault → W.faults world.new ≡ W.faults world.old }
{
    if has_super(alloc, store, uuid)? {
        return Err(CommandError::Refused(Refusal::Exists));
    }
    let disk = world.disk(request.cache, Some(device_bytes(request.log)))?;
    let (disk, created) = create_on(alloc, disk, store, uuid, request);
    world.close_disk(request.cache, disk);
    created
}

// Creates a volume on a disk and in a store. The disk is given back, with its cache where it was created.
fn create_on<D: Disk + Drop, S: Store>(
    alloc: Global,
    disk: D,
    store: &mut S,
    uuid: Uuid,
    request: &CreateRequest<'_>,
) -> (D, Result<(), CommandError>)
    requires limits { IsTrue (is_within_limits (sizes_of request.now)) }
    requires log { request.now.log ≡ log_of (D.state disk).size }
    requires is_disk { IsDisk (D.state disk) }
    ensures creates { OnOk result.1 (CreatesOn request.now uuid (D.state disk) (D.state result.0)
        (S.state store.old).objects (S.state store.new).objects) }
    ensures why { (why : Refusal) → IsErrOf result.1 (CommandError.Refused why) → (why ≡ Refusal.Exists)
        × IfSome (S.state store.old).objects (λ objects. IsSome (found objects (super_name uuid)))
        × ((S.state store.new).objects ≡ (S.state store.old).objects) }
    ensures fault { IsErrOf result.1 CommandError.Fault
        → IsConstant (λ disk. (D.state disk).faults) → IsConstant (λ store. (S.state store).faults) → ⊥ }
{
    match create(alloc, disk, store, uuid, request.geometry()) {
        Ok(volume) => (let_go(volume), Ok(())),
        Err((disk, error)) => (disk, Err(error.into())),
    }
}

// The uuid that is asked for, or a new one.
fn uuid_for<W: World>(request: &CreateRequest<'_>, world: &mut W) -> Result<Uuid, CommandError>
    ensures named { IfOk result (IsUuidFor request.now) }
    ensures refused { (why : Refusal) → IsErrOf result (CommandError.Refused why) → ⊥ }
    ensures disks { W.disk_at world.new ≡ W.disk_at world.old }
    ensures stores { W.store_at world.new ≡ W.store_at world.old }
    ensures fault { IsErrOf result CommandError.Fault → CountsOne (W.faults world.old) (W.faults world.new) }
    ensures no_fault { result ≢ Err CommandError.Fault → W.faults world.new ≡ W.faults world.old }
{
    match request.uuid {
        Some(uuid) => Ok(uuid),
        None => Ok(Builder::from_random_bytes(world.random16()?).into_uuid()),
    }
}

// The bytes of a device whose log has so many sectors.
pub(crate) fn device_bytes(log: u64) -> u64
    requires { log ≤ 2 ^ 31 }
    ensures bytes { result ≡ bytes_with log }
    ensures log { log_of result ≡ log }
{
    LOG_START + SECTOR_BYTES * log
}

// The bytes of the line that tells a uuid.
const LINE_BYTES: usize = 64;

// The line that tells a volume that was created, as one write.
fn tell_created<O: Sink>(out: &mut O, uuid: Uuid) -> Result<(), Failed>
    ensures ok { OnOk result (Appends (O.contents out.old) (O.contents out.new) (created_line uuid)) }
    ensures front { OnErr result ((n : ℕ) × (n ≤ length (created_line uuid))
        × Appends (O.contents out.old) (O.contents out.new) (take n (created_line uuid))) }
    ensures count { Counts (is_err result) (O.faults out.old) (O.faults out.new) }
{
    let mut text = Uuid::encode_buffer();
    let mut line = ArrayString::<LINE_BYTES>::new();
    line.push_str("created ");
    line.push_str(uuid.hyphenated().encode_lower(&mut text));
    line.push_str("\n");
    write_all(out, line.as_bytes())
}
