ghost use Rattle.std.specs.Prelude.{◌≡◌, ◌<◌, ◌≤◌, ◌↔◌, IsTrue, IfOk, IfErr, OnErr, length, take, codes, min};
ghost use Rattle.object_format.specs.Header.{header_in, IsObjectHeader};
ghost use Rattle.object_format.specs.Tests.{is_length, IsObjectRefusedAs};
ghost use Rattle.object_format.specs.declared.header.Header.{Header};

use crate::expected::Expected;
use crate::header::Header;
use crate::kind::Kind;
use crate::reason::BadObject;
use crate::{
    END_SEQ_AT, FIRST_SEQ_AT, HEADER_BYTES, KIND_AT, MAGIC, NUMBER_AT, PAYLOAD_AT, ROWS_AT, UUID_AT,
};
use lsvd_bytes::{read_16_bytes, read_u32, read_u64};

/// Reads the header of the object with the expected number, which has `size` bytes, from the first of its
/// bytes: at least 64, or all where it has fewer (a condition). The error names the first test that it fails,
/// and comes exactly where it does not begin with such a header, or is not as long as its header says.
pub fn read_header(bytes: &[u8], size: u64, expected: &Expected) -> Result<Header, BadObject>
    requires { min 64 size ≤ length bytes.now }
    ensures ok { IfOk result (IsObjectHeader bytes.now size expected.now) }
    ensures refused { IfErr result (IsObjectRefusedAs bytes.now size expected.now) }
    ensures none { OnErr result ((header : Header) → IsObjectHeader bytes.now size expected.now header → ⊥) }
{
    if !has_its_length(bytes, size) {
        return Err(BadObject::Length);
    }
    let head = &bytes[..HEADER_BYTES];
    if !has_magic(head) {
        return Err(BadObject::Magic);
    }
    let Some(header) = header_in(head) else {
        return Err(BadObject::Kind);
    };
    if !expected.has_uuid_of(&header) {
        return Err(BadObject::Uuid);
    }
    if header.number != expected.number {
        return Err(BadObject::Number);
    }
    if !expected.has_due_seqs(&header) {
        return Err(BadObject::Seqs);
    }
    if !expected.allows_counts(&header) {
        return Err(BadObject::Counts);
    }
    Ok(header)
}

// Whether the object has as many bytes as its header says, or, where its kind is unknown, at least a
// header's.
fn has_its_length(bytes: &[u8], size: u64) -> bool
    requires { min 64 size ≤ length bytes.now }
    ensures is { IsTrue result ↔ IsTrue (is_length (header_in (take 64 bytes.now)) size) }
    ensures room { IsTrue result → 64 ≤ length bytes.now }
{
    if size < HEADER_BYTES as u64 {
        return false;
    }
    match header_in(&bytes[..HEADER_BYTES]) {
        Some(header) => header.has_length(size),
        None => true,
    }
}

// Whether the header begins with the magic.
fn has_magic(head: &[u8]) -> bool
    requires { 8 ≤ length head.now }
    ensures { IsTrue result ↔ (take 8 head.now ≡ codes "LSVDOBJ1") }
{
    &head[..KIND_AT] == MAGIC.as_slice()
}

// The header with the fields of the 64 bytes. None is where the number of the kind is no kind's.
fn header_in(head: &[u8]) -> Option<Header>
    requires { length head.now ≡ 64 }
    ensures { result ≡ header_in head.now }
{
    let kind = Kind::from_number(read_u32(head, KIND_AT))?;
    Some(Header {
        kind,
        uuid: read_16_bytes(head, UUID_AT),
        number: read_u64(head, NUMBER_AT),
        first_seq: read_u64(head, FIRST_SEQ_AT),
        end_seq: read_u64(head, END_SEQ_AT),
        rows: read_u32(head, ROWS_AT),
        payload: read_u64(head, PAYLOAD_AT),
    })
}
