ghost use Rattle.std.specs.Prelude.{◌≡◌};
ghost use Rattle.volume_owner.specs.Owner.{IsIdle};
ghost use Rattle.volume_server.specs.OwnerDevice.{owner_relations};
ghost use Rattle.volume_server.specs.Serving.{GivesClients, EndsLane, AreClients, listener_told, link_told};

use crate::next::{NextClient, serve_next};
use crate::owner_device::OwnerDevice;
use lsvd_device::Disk;
use lsvd_listen::Listener;
use lsvd_objstore::{Receipt, Store};
use nbd_session::BlockDevice;
use read_cache::ReadCache;
use std::alloc::Global;
use vol_core::Volume;

/// Why a server ends.
#[derive(Clone, Copy, Debug, PartialEq, Eq)]
pub enum LaneEnd {
    /// It has served as many clients as it was to.
    Counted,
    /// The listener is closed.
    Closed,
    /// The listener failed, which it counted.
    Failed,
}

/// What a server has done.
#[derive(Clone, Copy, Debug, PartialEq, Eq)]
pub struct Lane {
    /// How many clients it has served.
    pub served: u64,
    /// Why it ended.
    pub end: LaneEnd,
}

/// What is left of a server that has ended.
#[derive(Drop)]
pub struct Closing<D: Disk, R: Receipt> {
    /// The volume, with all that was entered.
    pub volume: Volume<D, R>,
    /// What was done.
    pub lane: Lane,
}

/// Serves clients, one after the other, until so many were served, or the listener gives none.
pub fn serve_lane<S, B: BlockDevice<S>, L: Listener>(
    alloc: Global,
    device: &mut B,
    listener: &mut L,
    store: &mut S,
    share: u64,
) -> Lane
    ensures given { GivesClients result
        (listener_told L.given L.closed L.faults listener.old)
        (listener_told L.given L.closed L.faults listener.new) }
    ensures end { EndsLane share result }
    ensures clients { AreClients B.io
        (link_told L.Link.remaining L.Link.contents L.Link.held L.Link.Source.faults) result.served
        (L.coming listener.old) (L.coming listener.new)
        (B.state device.old store.old) (B.state device.new store.new) }
{
    for served in 0..share {
        let end = match serve_next(alloc, device, listener, store) {
            NextClient::Served(_, _) => continue,
            NextClient::NoLink => LaneEnd::Closed,
            NextClient::Failed => LaneEnd::Failed,
        };
        return Lane { served, end };
    }
    Lane {
        served: share,
        end: LaneEnd::Counted,
    }
}

/// Serves a volume to clients, one after the other, until so many were served, or the listener gives none,
/// and gives the volume back. No put of an object is under way, and no plan of a read is out (a condition),
/// as when it was just created or mounted; and so it is of the volume that is given back. Its objects are
/// read through the cache, which is let go then.
pub fn serve_volume<D: Disk, R: Receipt, S: Store<Receipt = R>, L: Listener>(
    alloc: Global,
    volume: Volume<D, R>,
    cache: ReadCache<R>,
    listener: &mut L,
    store: &mut S,
    sessions: u64,
) -> Closing<D, R>
    requires { IsIdle volume.volume }
    ensures given { GivesClients result.lane
        (listener_told L.given L.closed L.faults listener.old)
        (listener_told L.given L.closed L.faults listener.new) }
    ensures end { EndsLane sessions result.lane }
    ensures clients { AreClients (owner_relations R.state)
        (link_told L.Link.remaining L.Link.contents L.Link.held L.Link.Source.faults) result.lane.served
        (L.coming listener.old) (L.coming listener.new)
        (record { volume = volume; store = S.state store.old })
        (record { volume = result.volume; store = S.state store.new }) }
    ensures idle { IsIdle result.volume.volume }
{
    let mut device = OwnerDevice::new(volume, cache);
    let lane = serve_lane(alloc, &mut device, listener, store, sessions);
    Closing {
        volume: device.into_volume(),
        lane,
    }
}
