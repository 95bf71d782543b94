ghost use Rattle.std.specs.Prelude.{◌≡◌, ◌<◌, length, ⊤};
ghost use Rattle.lsvd_fault.specs.Faults.{Counts};
ghost use Rattle.nbd_wire.specs.Messages.{IsClientFlags, IsOptionHead, IsRequest};
ghost use Rattle.nbd_wire.specs.Heads.{ReadsHead};
ghost use Rattle.nbd_wire.specs.Reading.{ReadsMessage, ReadsData, is_link_fault};

use crate::decoding::{client_flags_of, option_head_of, request_of};
use crate::filling::fill;
use crate::message::{OptionHead, Request};
use crate::wire_end::WireEnd;
use crate::{CLIENT_FLAGS_BYTES, OPTION_HEAD_BYTES, REQUEST_BYTES};
use lsvd_fault::Source;

// The most bytes that one read of data to be dropped asks for.
const PIECE: usize = 4096;

/// Reads the flags of a client, which are its answer to the greeting. `Closed` comes where the input ends
/// inside them, or where a bit is set but bit 0, for the fixed newstyle, and bit 1, for no zeros after an
/// export.
pub fn read_flags<K: Source>(link: &mut K) -> Result<u32, WireEnd>
    ensures bytes { ReadsMessage 4 IsClientFlags (K.remaining link.old) (K.remaining link.new) result }
    ensures other { K.written link.new ≡ K.written link.old }
    ensures count { Counts (is_link_fault result) (K.faults link.old) (K.faults link.new) }
{
    let mut bytes = [0; CLIENT_FLAGS_BYTES];
    read_head(link, &mut bytes)?;
    client_flags_of(&bytes).ok_or(WireEnd::Closed)
}

/// Reads the head of an option. Its data, which come next, are to be read or dropped. `Closed` comes where
/// the input ends inside the head, or where it has another magic.
pub fn read_option_head<K: Source>(link: &mut K) -> Result<OptionHead, WireEnd>
    ensures bytes { ReadsMessage 16 IsOptionHead (K.remaining link.old) (K.remaining link.new) result }
    ensures other { K.written link.new ≡ K.written link.old }
    ensures count { Counts (is_link_fault result) (K.faults link.old) (K.faults link.new) }
{
    let mut bytes = [0; OPTION_HEAD_BYTES];
    read_head(link, &mut bytes)?;
    option_head_of(&bytes).ok_or(WireEnd::Closed)
}

/// Reads a request. The data of a write, which come next, are to be read or dropped. `Closed` comes where the
/// input ends inside the request, or where it has another magic.
pub fn read_request<K: Source>(link: &mut K) -> Result<Request, WireEnd>
    ensures bytes { ReadsMessage 28 IsRequest (K.remaining link.old) (K.remaining link.new) result }
    ensures other { K.written link.new ≡ K.written link.old }
    ensures count { Counts (is_link_fault result) (K.faults link.old) (K.faults link.new) }
{
    let mut bytes = [0; REQUEST_BYTES];
    read_head(link, &mut bytes)?;
    request_of(&bytes).ok_or(WireEnd::Closed)
}

/// Reads data of a message into the whole of `buf`, as those of an option or of a write. `Closed` comes where
/// the input ends before them all; after it and after a fault any bytes stand in `buf`.
pub fn read_data<K: Source>(link: &mut K, buf: &mut [u8]) -> Result<(), WireEnd>
    ensures bytes { ReadsData (length buf.new) (λ bytes _. buf.new ≡ bytes) (K.remaining link.old)
        (K.remaining link.new) result }
    ensures other { K.written link.new ≡ K.written link.old }
    ensures count { Counts (is_link_fault result) (K.faults link.old) (K.faults link.new) }
{
    let filled = fill(link, buf)?;
    if filled < buf.len() {
        return Err(WireEnd::Closed);
    }
    Ok(())
}

/// Reads data of a message and drops them, as those of an option that is too long, or of a write that is
/// refused. They are read in pieces of at most 4,096 bytes. `Closed` comes where the input ends before them
/// all.
pub fn drop_data<K: Source>(link: &mut K, size: u32) -> Result<(), WireEnd>
    ensures bytes { ReadsData size (λ _ _. ⊤) (K.remaining link.old) (K.remaining link.new) result }
    ensures other { K.written link.new ≡ K.written link.old }
    ensures count { Counts (is_link_fault result) (K.faults link.old) (K.faults link.new) }
{
    let mut piece = [0; PIECE];
    drop_pieces(link, &mut piece, size)
}

// Reads the first bytes of a message into the whole of `buf`.
fn read_head<K: Source>(link: &mut K, buf: &mut [u8]) -> Result<(), WireEnd>
    requires { 0 < length buf.old }
    ensures bytes { ReadsHead buf.new (K.remaining link.old) (K.remaining link.new) result }
    ensures other { K.written link.new ≡ K.written link.old }
    ensures count { Counts (is_link_fault result) (K.faults link.old) (K.faults link.new) }
{
    let filled = fill(link, buf)?;
    if filled == buf.len() {
        return Ok(());
    }
    if filled == 0 {
        return Err(WireEnd::Ended);
    }
    Err(WireEnd::Closed)
}

// Reads data into the piece, again and again, and drops them.
fn drop_pieces<K: Source>(link: &mut K, piece: &mut [u8], size: u32) -> Result<(), WireEnd>
    requires { 0 < length piece.old }
    ensures bytes { ReadsData size (λ _ _. ⊤) (K.remaining link.old) (K.remaining link.new) result }
    ensures other { K.written link.new ≡ K.written link.old }
    ensures count { Counts (is_link_fault result) (K.faults link.old) (K.faults link.new) }
{
    let mut left = size as usize;
    while 0 < left {
        let end = left.min(piece.len());
        read_data(link, &mut piece[..end])?;
        left -= end;
    }
    Ok(())
}
