ghost use Rattle.std.specs.Prelude.{◌≡◌, ◌≢◌, ◌≤◌, OnOk, Err, IsErrOf};
ghost use Rattle.lsvd_device.specs.Device.{IsDisk};
ghost use Rattle.volume_server.specs.History.{most_steps};
ghost use Rattle.volume_server.specs.Serving.{listener_told, link_told};
ghost use Rattle.volume_owner.specs.Acts.{moment_of};
ghost use Rattle.volume_owner.specs.Owner.{IsIdle};
ghost use Rattle.volume_commands.specs.Mounting.{HasLogLength, RefusesOn, RefusesIn, RefusesFor};
ghost use Rattle.volume_commands.specs.Mounting.{WorksOn, WorksIn, WorksFor};
ghost use Rattle.volume_commands.specs.Output.{Tells, TellsEnd};
ghost use Rattle.volume_commands.specs.Work.{DoesWork, IsTextOf};
ghost use Rattle.volume_commands.specs.World.{CountsNone, CountsOneOf, IsConstant};
ghost use Rattle.volume_commands.specs.World.{GivesBack, IsGivenBack};

use crate::clients::serve_mounted;
use crate::closing::let_go;
use crate::collection::collect_mounted;
use crate::error::CommandError;
use crate::mounting::{length_anew, mount};
use crate::report::Report;
use crate::world::World;
use command_line::MountRequest;
use lsvd_objstore::Store;
use refusals::Refusal;
use std::alloc::Global;
use vol_core::Volume;
use vol_recover::Mounted;

/// What a command does with a volume that was mounted for it.
#[derive(Clone, Copy)]
pub(crate) enum Work<'a> {
    /// Serves it to the clients that connect to this socket, in so many sessions.
    Serving { socket: &'a str, sessions: u64 },
    /// Collects it.
    Collection,
}

/// Mounts the volume that is asked for, with the store and the cache that the world has at their paths, and
/// does this with it. The store and the cache stand at their paths again when it ends.
///
/// A volume that is not mounted is `Refused`, for the reason that its store and its cache give, and nothing
/// is written then. `Fault` comes where a call of the world failed, or of the store or the disk that it gave,
/// or where the work failed; `Memory` where memory ran out. The first call that fails ends it.
pub(crate) fn on_mounted<W: World>(
    alloc: Global,
    request: &MountRequest<'_>,
    work: Work<'_>,
    world: &mut W,
    out: &mut W::Out,
) -> Report
    requires { HasLogLength request.now }
    ensures told { Tells (IsTextOf work.entry) result (W.Out.contents out.old) (W.Out.contents out.new) }
    ensures does { result ≡ Report.Done
        → WorksFor W.tells (λ disk. W.Disk.state disk) W.Store.Receipt.state request.now
        (DoesWork W.Store.Receipt.state
        (listener_told W.Clients.given W.Clients.closed W.Clients.faults)
        (λ clients. W.Clients.coming clients)
        (link_told W.Clients.Link.remaining W.Clients.Link.contents W.Clients.Link.held
        W.Clients.Link.Source.faults)
        work.entry (W.clients_at world.old) (W.Out.contents out.old) (W.Out.contents out.new))
        (record { disks = W.disk_at world.old; stores = W.store_at world.old })
        (record { disks = W.disk_at world.new; stores = W.store_at world.new }) }
    ensures why { (why : Refusal) → result ≡ Report.Refused why
        → RefusesFor W.tells (λ disk. W.Disk.state disk) W.Store.Receipt.state request.now
        (record { disks = W.disk_at world.old; stores = W.store_at world.old })
        (record { disks = W.disk_at world.new; stores = W.store_at world.new }) why }
    ensures back { GivesBack W.tells request.now.store.now request.now.cache.now
        (record { disks = W.disk_at world.old; stores = W.store_at world.old })
        (record { disks = W.disk_at world.new; stores = W.store_at world.new }) }
    ensures fault { result ≡ Report.Fault → IsConstant (λ disk. (W.Disk.state disk).faults)
        → IsConstant (λ store. (W.Store.state store).faults)
        → IsConstant W.Clients.faults → CountsOneOf (W.faults world.old) (W.faults world.new)
        (W.Out.faults out.old) (W.Out.faults out.new) }
    ensures no_fault { result ≢ Report.Fault → CountsNone (W.faults world.old) (W.faults world.new)
        (W.Out.faults out.old) (W.Out.faults out.new) }
{
    match with_store(alloc, request, work, world, out) {
        Ok(()) => Report::Done,
        Err(CommandError::Refused(why)) => Report::Refused(why),
        Err(CommandError::Fault) => Report::Fault,
        Err(CommandError::OutOfMemory) => Report::Memory,
    }
}

// Mounts the volume of the store that the world gives, which then has it again, and does the work.
fn with_store<W: World>(
    alloc: Global,
    request: &MountRequest<'_>,
    work: Work<'_>,
    world: &mut W,
    out: &mut W::Out,
) -> Result<(), CommandError>
    requires { HasLogLength request.now }
    ensures told { TellsEnd (IsTextOf work.entry) result (W.Out.contents out.old) (W.Out.contents out.new) }
    ensures does { OnOk result (WorksFor W.tells (λ disk. W.Disk.state disk) W.Store.Receipt.state request.now
        (DoesWork W.Store.Receipt.state
        (listener_told W.Clients.given W.Clients.closed W.Clients.faults)
        (λ clients. W.Clients.coming clients)
        (link_told W.Clients.Link.remaining W.Clients.Link.contents W.Clients.Link.held
        W.Clients.Link.Source.faults)
        work.entry (W.clients_at world.old) (W.Out.contents out.old) (W.Out.contents out.new))
        (record { disks = W.disk_at world.old; stores = W.store_at world.old })
        (record { disks = W.disk_at world.new; stores = W.store_at world.new })) }
    ensures why { (why : Refusal) → IsErrOf result (CommandError.Refused why)
        → RefusesFor W.tells (λ disk. W.Disk.state disk) W.Store.Receipt.state request.now
        (record { disks = W.disk_at world.old; stores = W.store_at world.old })
        (record { disks = W.disk_at world.new; stores = W.store_at world.new }) why }
    ensures back { GivesBack W.tells request.now.store.now request.now.cache.now
        (record { disks = W.disk_at world.old; stores = W.store_at world.old })
        (record { disks = W.disk_at world.new; stores = W.store_at world.new }) }
    ensures fault { IsErrOf result CommandError.Fault → IsConstant (λ disk. (W.Disk.state disk).faults)
        → IsConstant (λ store. (W.Store.state store).faults)
        → IsConstant W.Clients.faults → CountsOneOf (W.faults world.old) (W.faults world.new)
        (W.Out.faults out.old) (W.Out.faults out.new) }
    ensures no_fault { result ≢ Err CommandError.Fault → CountsNone (W.faults world.old) (W.faults world.new)
        (W.Out.faults out.old) (W.Out.faults out.new) }
{
    let mut store = world.store(request.store, false)?;
    let done = with_cache(alloc, request, work, world, out, &mut store);
    world.close_store(request.store, store);
    done
}

// Mounts the volume of a store with the disk that the world gives, which then has it again, and does the
// work.
fn with_cache<W: World>(
    alloc: Global,
    request: &MountRequest<'_>,
    work: Work<'_>,
    world: &mut W,
    out: &mut W::Out,
    store: &mut W::Store,
) -> Result<(), CommandError>
    requires { HasLogLength request.now }
    ensures told { TellsEnd (IsTextOf work.entry) result (W.Out.contents out.old) (W.Out.contents out.new) }
    ensures does { OnOk result (WorksIn W.tells (λ disk. W.Disk.state disk) W.Store.Receipt.state request.now
        (DoesWork W.Store.Receipt.state
        (listener_told W.Clients.given W.Clients.closed W.Clients.faults)
        (λ clients. W.Clients.coming clients)
        (link_told W.Clients.Link.remaining W.Clients.Link.contents W.Clients.Link.held
        W.Clients.Link.Source.faults)
        work.entry (W.clients_at world.old) (W.Out.contents out.old) (W.Out.contents out.new))
        (W.disk_at world.old request.now.cache.now) (W.disk_at world.new request.now.cache.now)
        (W.Store.state store.old) (W.Store.state store.new)) }
    ensures why { (why : Refusal) → IsErrOf result (CommandError.Refused why)
        → RefusesIn W.tells (λ disk. W.Disk.state disk) W.Store.Receipt.state request.now
        (W.disk_at world.old request.now.cache.now) (W.disk_at world.new request.now.cache.now)
        (W.Store.state store.old) (W.Store.state store.new) why }
    ensures same { (why : Refusal) → IsErrOf result (CommandError.Refused why)
        → (W.Store.state store.new).objects ≡ (W.Store.state store.old).objects }
    ensures back { IsGivenBack W.tells (W.disk_at world.old request.now.cache.now)
        (W.disk_at world.new request.now.cache.now) }
    ensures fault { IsErrOf result CommandError.Fault → IsConstant (λ disk. (W.Disk.state disk).faults)
        → IsConstant (λ store. (W.Store.state store).faults)
        → IsConstant W.Clients.faults → CountsOneOf (W.faults world.old) (W.faults world.new)
        (W.Out.faults out.old) (W.Out.faults out.new) }
    ensures no_fault { result ≢ Err CommandError.Fault → CountsNone (W.faults world.old) (W.faults world.new)
        (W.Out.faults out.old) (W.Out.faults out.new) }
{
    let length = length_anew(alloc, store, request)?;
    let disk = world.disk(request.cache, length)?;
    let (disk, done) = with_disk(alloc, request, work, world, out, store, disk);
    world.close_disk(request.cache, disk);
    done
}

// Mounts the volume of a disk and a store, and does the work. The disk is given back.
fn with_disk<W: World>(
    alloc: Global,
    request: &MountRequest<'_>,
    work: Work<'_>,
    world: &mut W,
    out: &mut W::Out,
    store: &mut W::Store,
    disk: W::Disk,
) -> (W::Disk, Result<(), CommandError>)
    requires { IsDisk (W.Disk.state disk) }
    ensures told { TellsEnd (IsTextOf work.entry) result.1 (W.Out.contents out.old) (W.Out.contents out.new) }
    ensures does { OnOk result.1 (WorksOn (λ disk. W.Disk.state disk) W.Store.Receipt.state request.now
        (DoesWork W.Store.Receipt.state
        (listener_told W.Clients.given W.Clients.closed W.Clients.faults)
        (λ clients. W.Clients.coming clients)
        (link_told W.Clients.Link.remaining W.Clients.Link.contents W.Clients.Link.held
        W.Clients.Link.Source.faults)
        work.entry (W.clients_at world.old) (W.Out.contents out.old) (W.Out.contents out.new))
        (W.Disk.state disk) (W.Disk.state result.0) (W.Store.state store.old) (W.Store.state store.new)) }
    ensures why { (why : Refusal) → IsErrOf result.1 (CommandError.Refused why)
        → RefusesOn (λ disk. W.Disk.state disk) W.Store.Receipt.state request.now (W.Disk.state disk) result.0
        (W.Store.state store.old) (W.Store.state store.new) why }
    ensures fault { IsErrOf result.1 CommandError.Fault → IsConstant (λ disk. (W.Disk.state disk).faults)
        → IsConstant (λ store. (W.Store.state store).faults)
        → IsConstant W.Clients.faults → CountsOneOf (W.faults world.old) (W.faults world.new)
        (W.Out.faults out.old) (W.Out.faults out.new) }
    ensures no_fault { result.1 ≢ Err CommandError.Fault
        → CountsNone (W.faults world.old) (W.faults world.new)
        (W.Out.faults out.old) (W.Out.faults out.new) }
{
    let mounted = match mount(alloc, disk, store, request) {
        Ok(mounted) => mounted,
        Err((disk, error)) => return (disk, Err(error.into())),
    };
    let (volume, done) = run_work(alloc, work, world, out, store, mounted);
    (let_go(volume), done)
}

// Does the work on a volume that was mounted. The volume is given back.
fn run_work<W: World>(
    alloc: Global,
    work: Work<'_>,
    world: &mut W,
    out: &mut W::Out,
    store: &mut W::Store,
    mounted: Mounted<W::Disk, <W::Store as Store>::Receipt>,
) -> (
    Volume<W::Disk, <W::Store as Store>::Receipt>,
    Result<(), CommandError>,
)
    requires idle { IsIdle mounted.volume.volume }
    requires steps { mounted.volume.steps ≤ most_steps }
    ensures told { TellsEnd (IsTextOf work.entry) result.1 (W.Out.contents out.old) (W.Out.contents out.new) }
    ensures does { OnOk result.1 (DoesWork W.Store.Receipt.state
        (listener_told W.Clients.given W.Clients.closed W.Clients.faults)
        (λ clients. W.Clients.coming clients)
        (link_told W.Clients.Link.remaining W.Clients.Link.contents W.Clients.Link.held
        W.Clients.Link.Source.faults)
        work.entry (W.clients_at world.old) (W.Out.contents out.old) (W.Out.contents out.new) mounted
        (W.Store.state store.old) (moment_of result.0 (W.Store.state store.new))) }
    ensures refused { (why : Refusal) → IsErrOf result.1 (CommandError.Refused why) → ⊥ }
    ensures fault { IsErrOf result.1 CommandError.Fault → IsConstant (λ disk. (W.Disk.state disk).faults)
        → IsConstant (λ store. (W.Store.state store).faults)
        → IsConstant W.Clients.faults → CountsOneOf (W.faults world.old) (W.faults world.new)
        (W.Out.faults out.old) (W.Out.faults out.new) }
    ensures no_fault { result.1 ≢ Err CommandError.Fault
        → CountsNone (W.faults world.old) (W.faults world.new)
        (W.Out.faults out.old) (W.Out.faults out.new) }
{
    match work {
        Work::Serving { socket, sessions } => {
            serve_mounted(alloc, socket, sessions, world, out, store, mounted)
        }
        Work::Collection => collect_mounted(alloc, out, store, mounted),
    }
}
