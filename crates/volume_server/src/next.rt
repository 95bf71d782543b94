ghost use Rattle.nbd_session.specs.Session.{IsSession, export_of};
ghost use Rattle.volume_server.specs.Serving.{HasSentAll, GivesNext, ServesNext, listener_told, link_told};

use lsvd_listen::{Connection, Listener};
use nbd_session::{BlockDevice, SessionEnd, serve_session};
use std::alloc::Global;

/// What came of waiting for the next client.
#[derive(Drop)]
pub enum NextClient<K: Connection + Drop> {
    /// It came on this link, and was served until its session ended so.
    Served(K, SessionEnd),
    /// None comes any more: the listener is closed.
    NoLink,
    /// The listener failed, which it counted.
    Failed,
}

/// Waits for the next client and serves it until its session ends, and hands its link back. The session
/// begins on the link as the listener gave it. What the link still held back of the last replies was sent,
/// unless that failed: then the client misses them, as where its connection broke.
pub fn serve_next<S, B: BlockDevice<S>, L: Listener>(
    alloc: Global,
    device: &mut B,
    listener: &mut L,
    store: &mut S,
) -> NextClient<L::Link>
    ensures next { GivesNext result (listener_told L.given L.closed L.faults listener.old)
        (listener_told L.given L.closed L.faults listener.new) }
    ensures serves { ServesNext B.io
        (link_told L.Link.remaining L.Link.contents L.Link.held L.Link.Source.faults) result
        (L.coming listener.old) (L.coming listener.new)
        (B.state device.old store.old) (B.state device.new store.new) }
{
    let mut link = match listener.accept() {
        Ok(Some(link)) => link,
        Ok(None) => return NextClient::NoLink,
        Err(_) => return NextClient::Failed,
    };
    let end = serve_client(alloc, device, &mut link, store);
    NextClient::Served(link, end)
}

// Serves a client until its session ends, has the device hand over what it gathered, and sends then what the
// link still holds back, unless the link had failed: what it was told of is not tried again.
fn serve_client<S, B: BlockDevice<S>, K: Connection>(
    alloc: Global,
    device: &mut B,
    link: &mut K,
    store: &mut S,
) -> SessionEnd
    ensures session { IsSession B.io (export_of B.io (B.state device.old store.old)) result
        (record { left = K.remaining link.old; sent = K.contents link.old })
        (record { left = K.remaining link.new; sent = K.contents link.new })
        (B.state device.old store.old) (B.state device.new store.new) }
    ensures sent { HasSentAll (K.held link.new) (K.Source.faults link.old) (K.Source.faults link.new) }
{
    let end = serve_session(alloc, device, link, store);
    device.hand_over(store);
    match end {
        SessionEnd::LinkFault => {}
        _ => {
            let _ = link.send();
        }
    }
    end
}
