ghost use Rattle.std.specs.Prelude.{◌≡◌, ◌≢◌};
ghost use Rattle.volume_commands.specs.Mounting.{HasLogLength, RefusesFor};
ghost use Rattle.volume_commands.specs.Serving.{Serves, TellsServing};
ghost use Rattle.volume_commands.specs.World.{CountsNone, CountsOneOf, IsConstant, GivesBack};
ghost use Rattle.volume_server.specs.Serving.{listener_told, link_told};

use crate::report::Report;
use crate::work::{Work, on_mounted};
use crate::world::World;
use command_line::ServeRequest;
use refusals::Refusal;
use std::alloc::Global;

/// Serves the volume that is asked for: mounts it, writes a line to `out` as soon as clients can connect, and
/// serves them; with the last session it puts into the store what is not yet there, and writes a line again.
/// The store and the cache stand at their paths again when it ends.
///
/// The first line tells how many entries the history of the volume that was mounted has, and the number of
/// its last object; the second how many it has at the end. A volume that is not mounted is `Refused`, for the
/// reason that its store and its cache give, and nothing is written then. `Fault` comes where a call of the
/// world failed, or of the store, the disk or the listener that it gave, or of `out`; `Memory` where memory
/// ran out. The first call that fails ends it, but for one of the listener: then no more clients come, and it
/// ends as with the last session.
pub fn answer_serve<W: World>(
    alloc: Global,
    request: &ServeRequest<'_>,
    world: &mut W,
    out: &mut W::Out,
) -> Report
    requires { HasLogLength request.now.mount }
    ensures told { TellsServing result (W.Out.contents out.old) (W.Out.contents out.new) }
    ensures serves { result ≡ Report.Done → Serves W.tells (λ disk. W.Disk.state disk) W.Store.Receipt.state
        (listener_told W.Clients.given W.Clients.closed W.Clients.faults)
        (λ clients. W.Clients.coming clients)
        (link_told W.Clients.Link.remaining W.Clients.Link.contents W.Clients.Link.held
        W.Clients.Link.Source.faults)
        request.now (W.clients_at world.old request.now.socket.now)
        (record { disks = W.disk_at world.old; stores = W.store_at world.old })
        (record { disks = W.disk_at world.new; stores = W.store_at world.new })
        (W.Out.contents out.old) (W.Out.contents out.new) }
    ensures why { (why : Refusal) → result ≡ Report.Refused why
        → RefusesFor W.tells (λ disk. W.Disk.state disk) W.Store.Receipt.state request.now.mount
        (record { disks = W.disk_at world.old; stores = W.store_at world.old })
        (record { disks = W.disk_at world.new; stores = W.store_at world.new }) why }
    ensures back { GivesBack W.tells request.now.mount.store.now request.now.mount.cache.now
        (record { disks = W.disk_at world.old; stores = W.store_at world.old })
        (record { disks = W.disk_at world.new; stores = W.store_at world.new }) }
    ensures fault { result ≡ Report.Fault → IsConstant (λ disk. (W.Disk.state disk).faults)
        → IsConstant (λ store. (W.Store.state store).faults)
        → IsConstant W.Clients.faults → CountsOneOf (W.faults world.old) (W.faults world.new)
        (W.Out.faults out.old) (W.Out.faults out.new) }
    ensures no_fault { result ≢ Report.Fault → CountsNone (W.faults world.old) (W.faults world.new)
        (W.Out.faults out.old) (W.Out.faults out.new) }
{
    let work = Work::Serving {
        socket: request.socket,
        sessions: request.sessions,
    };
    on_mounted(alloc, &request.mount, work, world, out)
}
