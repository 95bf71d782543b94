ghost use Rattle.std.specs.Prelude.{◌≡◌, ◌/◌};
ghost use Rattle.nbd_session.specs.Requests.{asked_of, is_to_disconnect, error_code, past_end, first_refusal};
ghost use Rattle.nbd_session.specs.Requests.{taken_as};

use crate::command::Command;
use lsvd_base::{Geometry, SECTOR_BYTES};
use nbd_wire::Request;
use thiserror::Error;

// The command flag for data that are durable before the reply. The other known one forbids holes, of which
// there are none.
const FUA: u16 = 1;

// The known command flags are those below this bit.
const FIRST_UNKNOWN_FLAG: u16 = 4;

/// Why a request is refused.
#[derive(Clone, Copy, Debug, PartialEq, Eq, Error)]
pub enum RequestError {
    /// It is out of form: an unknown command or flag, bytes that are no whole sectors, a read or a trim past
    /// the end, or a read or a write that is too long.
    #[error("the request is out of form")]
    Invalid,
    /// It writes past the end.
    #[error("the request writes past the end")]
    NoSpace,
}

impl RequestError {
    /// Its number in a reply: 22 or 28.
    pub fn code(self) -> u32
        ensures { result ≡ error_code self }
    {
        match self {
            RequestError::Invalid => 22,
            RequestError::NoSpace => 28,
        }
    }
}

/// What a request asks of a volume.
#[derive(Clone, Copy, Debug, PartialEq, Eq)]
pub enum Asked {
    /// To read so many sectors from one on, or none.
    Read {
        lba: u64,
        sectors: u64,
    },
    /// To write the data that come after the request, so many sectors from one on, or none; and to flush
    /// then, where they are to be durable.
    Write {
        lba: u64,
        sectors: u64,
        is_durable: bool,
    },
    /// To put zeros at so many sectors from one on, or at none; and to flush then, where they are to be
    /// durable.
    Zero {
        lba: u64,
        sectors: u64,
        is_durable: bool,
    },
    /// To flush.
    Flush,
    /// To end the session.
    Disconnect,
    /// It is refused. The data of a write come after it all the same.
    Refused(RequestError),
}

impl Asked {
    /// Whether it is to end the session.
    pub fn is_to_disconnect(self) -> bool
        ensures { result ≡ is_to_disconnect self }
    {
        matches!(self, Asked::Disconnect)
    }
}

/// What a request asks of a volume of these sizes, or the first reason to refuse it, in this order: another
/// command, another flag, bytes that are no whole sectors, the end of the volume, and more sectors than one
/// read or write may have. A flush has neither bytes nor sectors that are judged, and whoever disconnects is
/// not judged at all.
pub fn asked_of(geometry: &Geometry, request: &Request) -> Asked
    ensures { result ≡ asked_of geometry.now request.now }
{
    let Some(command) = Command::from_kind(request.kind) else {
        return Asked::Refused(RequestError::Invalid);
    };
    if command == Command::Disconnect {
        return Asked::Disconnect;
    }
    match first_refusal(geometry, request, command) {
        Some(error) => Asked::Refused(error),
        None => taken_as(request, command),
    }
}

// The first reason to refuse a request with this command.
fn first_refusal(geometry: &Geometry, request: &Request, command: Command) -> Option<RequestError>
    ensures { result ≡ first_refusal geometry.now request.now command }
{
    if request.flags >= FIRST_UNKNOWN_FLAG {
        return Some(RequestError::Invalid);
    }
    if command == Command::Flush {
        return None;
    }
    if request.offset % SECTOR_BYTES != 0 || u64::from(request.length) % SECTOR_BYTES != 0 {
        return Some(RequestError::Invalid);
    }
    let (lba, sectors) = sectors_of(request);
    if !geometry.covers(lba, sectors) {
        return Some(past_end(command));
    }
    match command {
        Command::Read | Command::Write if geometry.max_write < sectors => {
            Some(RequestError::Invalid)
        }
        _ => None,
    }
}

// The error of a request past the end of the volume.
fn past_end(command: Command) -> RequestError
    ensures { result ≡ past_end command }
{
    match command {
        Command::Write | Command::WriteZeroes => RequestError::NoSpace,
        _ => RequestError::Invalid,
    }
}

// What a request asks that is not refused.
fn taken_as(request: &Request, command: Command) -> Asked
    ensures { result ≡ taken_as request.now command }
{
    let (lba, sectors) = sectors_of(request);
    let is_durable = request.flags & FUA != 0;
    match command {
        Command::Read => Asked::Read { lba, sectors },
        Command::Write => Asked::Write {
            lba,
            sectors,
            is_durable,
        },
        Command::Trim | Command::WriteZeroes => Asked::Zero {
            lba,
            sectors,
            is_durable,
        },
        Command::Flush => Asked::Flush,
        Command::Disconnect => Asked::Disconnect,
    }
}

// The first sector that a request is about, and how many they are.
fn sectors_of(request: &Request) -> (u64, u64)
    ensures { result ≡ (request.now.offset / 512, request.now.length / 512) }
{
    (
        request.offset / SECTOR_BYTES,
        u64::from(request.length) / SECTOR_BYTES,
    )
}
