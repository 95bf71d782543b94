ghost use Rattle.std.specs.Prelude.{◌≡◌, ◌≢◌};
ghost use Rattle.volume_commands.specs.Collecting.{Collects, TellsCollection};
ghost use Rattle.volume_commands.specs.Mounting.{HasLogLength, RefusesFor};
ghost use Rattle.volume_commands.specs.World.{CountsNone, CountsOneOf, IsConstant, GivesBack};

use crate::report::Report;
use crate::work::{Work, on_mounted};
use crate::world::World;
use command_line::MountRequest;
use refusals::Refusal;
use std::alloc::Global;

/// Collects the volume that is asked for: mounts it, puts into the store what is not yet there, copies what
/// is live out of objects that have little of it until there is none, removes each object that no mount
/// needs, and writes two lines to `out`: how many sectors were copied, and how many objects were removed.
/// What the volume holds stays. The store and the cache stand at their paths again when it ends.
///
/// A volume that is not mounted is `Refused`, for the reason that its store and its cache give, and nothing
/// is written then. `Fault` comes where a call of the world failed, or of the store or the disk that it gave,
/// or of `out`; `Memory` where memory ran out. The first call that fails ends it; what was done until then
/// stands, and it may be run again.
pub fn answer_collect<W: World>(
    alloc: Global,
    request: &MountRequest<'_>,
    world: &mut W,
    out: &mut W::Out,
) -> Report
    requires { HasLogLength request.now }
    ensures told { TellsCollection result (W.Out.contents out.old) (W.Out.contents out.new) }
    ensures collects { result ≡ Report.Done
        → Collects W.tells (λ disk. W.Disk.state disk) W.Store.Receipt.state request.now
        (record { disks = W.disk_at world.old; stores = W.store_at world.old })
        (record { disks = W.disk_at world.new; stores = W.store_at world.new })
        (W.Out.contents out.old) (W.Out.contents out.new) }
    ensures why { (why : Refusal) → result ≡ Report.Refused why
        → RefusesFor W.tells (λ disk. W.Disk.state disk) W.Store.Receipt.state request.now
        (record { disks = W.disk_at world.old; stores = W.store_at world.old })
        (record { disks = W.disk_at world.new; stores = W.store_at world.new }) why }
    ensures back { GivesBack W.tells request.now.store.now request.now.cache.now
        (record { disks = W.disk_at world.old; stores = W.store_at world.old })
        (record { disks = W.disk_at world.new; stores = W.store_at world.new }) }
    ensures fault { result ≡ Report.Fault → IsConstant (λ disk. (W.Disk.state disk).faults)
        → IsConstant (λ store. (W.Store.state store).faults)
        → IsConstant W.Clients.faults → CountsOneOf (W.faults world.old) (W.faults world.new)
        (W.Out.faults out.old) (W.Out.faults out.new) }
    ensures no_fault { result ≢ Report.Fault → CountsNone (W.faults world.old) (W.faults world.new)
        (W.Out.faults out.old) (W.Out.faults out.new) }
{
    on_mounted(alloc, request, Work::Collection, world, out)
}
