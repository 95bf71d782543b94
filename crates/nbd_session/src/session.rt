ghost use Rattle.std.specs.Prelude.{◌≡◌};
ghost use Rattle.lsvd_fault.specs.Faults.{Counts};
ghost use Rattle.nbd_wire.specs.Reading.{is_link_fault};
ghost use Rattle.nbd_wire.specs.Writing.{WritesMessage};
ghost use Rattle.nbd_session.specs.Exchanges.{request_reply_bytes};
ghost use Rattle.nbd_session.specs.Session.{Transmits, IsSession, ended_by_link, export_of};
ghost use Rattle.nbd_session.specs.Steps.{ServesRequest};
ghost use Rattle.nbd_session.specs.BlockDevice.{HasRoom};

use crate::asking::asked_of;
use crate::block_device::BlockDevice;
use crate::carrying_out::carry_out;
use crate::command::Command;
use crate::content::read_content;
use crate::outcome::ReplyError;
use lsvd_base::{Body, SECTOR_BYTES};
use lsvd_fault::{Link, Sink};
use nbd_options::{Export, NegotiationEnd, negotiate};
use nbd_wire::{Request, WireEnd, a_message_has_one_reading, read_request, write_simple};
use std::alloc::Global;

/// The most requests of one session. The session ends before one more is read.
pub const MAX_REQUESTS: u64 = 1 << 40;

// How many bytes a request has, without the data that come behind it, and how many a reply.
const REQUEST_BYTES: usize = 28;

const REPLY_BYTES: usize = 16;

/// The most steps that the volume may have made since it was mounted before a request. Where it has made
/// more, the session ends.
pub const MAX_STEPS: u64 = 1 << 58;

/// How a session ends.
#[derive(Clone, Copy, Debug, PartialEq, Eq)]
pub enum SessionEnd {
    /// The client has ended it: by the request to disconnect, by the option to abort, or by the end of its
    /// input between two messages.
    Ended,
    /// The connection is to be closed: the input ends inside a message, or a message is out of form, or the
    /// negotiation closed it.
    Closed,
    /// It has answered `MAX_REQUESTS` requests, or the volume has made `MAX_STEPS` steps. A new session may
    /// go on with the first alone.
    Spent,
    /// A read or a write of the link failed, and was counted there.
    LinkFault,
    /// There was no memory for the negotiation, of which nothing was sent.
    OutOfMemory,
}

impl From<WireEnd> for SessionEnd {
    ghost use Rattle.std.specs.Prelude.{◌≡◌};
    ghost use Rattle.nbd_session.specs.Steps.{of_wire};

    ghost from_gives = { λ w e. e ≡ of_wire w };

    fn from(end: WireEnd) -> SessionEnd {
        match end {
            WireEnd::Ended => SessionEnd::Ended,
            WireEnd::Closed => SessionEnd::Closed,
            WireEnd::LinkFault => SessionEnd::LinkFault,
        }
    }
}

/// Serves a volume to a client, as a block device, from the greeting to the end of the session.
///
/// Requests are answered in order, each before the next one is read. A write or a zeroing that is answered
/// without an error was entered, and one that is answered with one was not, unless it is the flush after it
/// that failed; a flush that is answered without one, and a request that asks to be durable, has flushed the
/// device; a read gives what the device gave. What its calls are to the volume's history, the device tells.
/// A request that is out of form is refused, and the data of a refused write are read and dropped. Memory is
/// bounded whatever the client sends, since lengths are judged before data are read. Before replies that the
/// link holds back may leave it, the device hands over what it gathered.
///
/// The session's end says nothing of the volume, which stays as all that was answered has left it.
pub fn serve_session<S, B: BlockDevice<S>, K: Link>(
    alloc: Global,
    device: &mut B,
    link: &mut K,
    store: &mut S,
) -> SessionEnd
    ensures session { IsSession B.io (export_of B.io (B.state device.old store.old)) result
        (record { left = K.remaining link.old; sent = K.contents link.old })
        (record { left = K.remaining link.new; sent = K.contents link.new })
        (B.state device.old store.old) (B.state device.new store.new) }
    ensures count { Counts (ended_by_link result) (K.Source.faults link.old) (K.Source.faults link.new) }
{
    let geometry = device.geometry(store);
    let export = Export {
        uuid: device.uuid(store),
        size: geometry.sectors * SECTOR_BYTES,
        max_transfer: (geometry.max_write * SECTOR_BYTES) as u32,
    };
    match negotiate(alloc, link, &export) {
        NegotiationEnd::Entered => transmit(alloc, device, link, store),
        NegotiationEnd::Ended => SessionEnd::Ended,
        NegotiationEnd::Closed => SessionEnd::Closed,
        NegotiationEnd::LinkFault => SessionEnd::LinkFault,
        NegotiationEnd::OutOfMemory => SessionEnd::OutOfMemory,
    }
}

// Answers requests until the session ends.
fn transmit<S, B: BlockDevice<S>, K: Link>(
    alloc: Global,
    device: &mut B,
    link: &mut K,
    store: &mut S,
) -> SessionEnd
    ensures transmits { Transmits B.io result
        (record { left = K.remaining link.old; sent = K.contents link.old })
        (record { left = K.remaining link.new; sent = K.contents link.new })
        (B.state device.old store.old) (B.state device.new store.new) }
    ensures count { Counts (ended_by_link result) (K.Source.faults link.old) (K.Source.faults link.new) }
{
    for _ in 0..MAX_REQUESTS {
        if MAX_STEPS <= device.steps(store) {
            return SessionEnd::Spent;
        }
        hand_over_before(device, link, store, REQUEST_BYTES, 0);
        match serve_request(alloc, device, link, store) {
            Ok(true) => {}
            Ok(false) => return SessionEnd::Ended,
            Err(end) => return SessionEnd::from(end),
        }
    }
    SessionEnd::Spent
}

// Reads the next request and answers it, and says whether the session goes on: it does not where the client
// disconnects.
fn serve_request<S, B: BlockDevice<S>, K: Link>(
    alloc: Global,
    device: &mut B,
    link: &mut K,
    store: &mut S,
) -> Result<bool, WireEnd>
    requires { HasRoom B.io (B.state device.old store.old) }
    ensures serves { ServesRequest B.io result
        (record { left = K.remaining link.old; sent = K.contents link.old })
        (record { left = K.remaining link.new; sent = K.contents link.new })
        (B.state device.old store.old) (B.state device.new store.new) }
    ensures count { Counts (is_link_fault result) (K.Source.faults link.old) (K.Source.faults link.new) }
{
    a_message_has_one_reading();
    let request = read_request(link)?;
    let asked = asked_of(&device.geometry(store), &request);
    if asked.is_to_disconnect() {
        return Ok(false);
    }
    let (input, output) = sizes(&request);
    hand_over_before(device, link, store, input, output);
    let body = read_content(alloc, link, &request, asked)?;
    let outcome = carry_out(alloc, device, store, asked, body);
    let told = reply(link, request.cookie, &outcome);
    drop(outcome);
    told?;
    Ok(true)
}

// Hands over what the device gathered, where replies that the link holds back may be sent before `input`
// bytes more were read and then `output` were written.
fn hand_over_before<S, B: BlockDevice<S>, K: Link>(
    device: &mut B,
    link: &K,
    store: &S,
    input: usize,
    output: usize,
)
    ensures { B.state device.new store.now ≡ B.state device.old store.now }
{
    if !link.holds_back(input, output) {
        device.hand_over(store);
    }
}

// How many bytes come behind a request, and how many its reply has, at most.
fn sizes(request: &Request) -> (usize, usize) {
    let length = request.length as usize;
    match Command::from_kind(request.kind) {
        Some(Command::Read) => (0, REPLY_BYTES.saturating_add(length)),
        Some(Command::Write) => (length, REPLY_BYTES),
        _ => (0, REPLY_BYTES),
    }
}

// Writes the reply to the request of a cookie.
fn reply<K: Sink>(
    link: &mut K,
    cookie: u64,
    outcome: &Result<Body, ReplyError>,
) -> Result<(), WireEnd>
    ensures bytes { WritesMessage (request_reply_bytes cookie outcome.now) (K.contents link.old)
        (K.contents link.new) result }
    ensures other { K.unread link.new ≡ K.unread link.old }
    ensures count { Counts (is_link_fault result) (K.faults link.old) (K.faults link.new) }
{
    match outcome {
        Ok(content) => write_simple(link, 0, cookie, content.as_bytes()),
        Err(error) => write_simple(link, error.code(), cookie, &[]),
    }
}
