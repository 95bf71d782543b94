ghost use Rattle.std.specs.Prelude.{◌≡◌, ℕ, ◌≤◌, List, ◌+◌, ◌<◌, ◌++◌, length, take, vec_len, IfOk, OnOk};
ghost use Rattle.std.specs.Prelude.{OnErr, is_err};
ghost use Rattle.std.specs.Io.KnownBytes.{Appends, Consumes, IsAtEnd};
ghost use Rattle.lsvd_fault.specs.Faults.{Counts, is_read_fault};
ghost use Rattle.lsvd_fault.specs.declared.transfer.ReadError.TheVariants as read_errors;

use crate::stream::{Failed, Sink, Source};
use std::alloc::{AllocError, Global};
use thiserror::Error;

/// Why bytes could not be read to the end.
#[derive(Clone, Copy, Debug, PartialEq, Eq, Error)]
pub enum ReadError {
    /// A read of the source failed, and was counted there.
    #[error("a read failed")]
    Failed,
    /// Memory ran out for the bytes, or for the buffer that they are read into. No fault was counted.
    #[error("out of memory")]
    OutOfMemory,
}

impl From<Failed> for ReadError {
    ghost from_gives = { λ _ e. e ≡ read_errors.Failed };

    fn from(_: Failed) -> ReadError {
        ReadError::Failed
    }
}

impl From<AllocError> for ReadError {
    ghost from_gives = { λ _ e. e ≡ read_errors.OutOfMemory };

    fn from(_: AllocError) -> ReadError {
        ReadError::OutOfMemory
    }
}

// The most bytes that one read asks for.
const CHUNK: usize = 65_536;

// A buffer of `length` bytes.
fn buffer(alloc: Global, length: usize) -> Result<Vec<u8>, AllocError>
    ensures { IfOk result (λ buffer. vec_len buffer ≡ length) }
{
    vec![in alloc; 0u8; length]
}

// One read into the buffer, and from there to the end of `bytes`; how many bytes came.
fn read_more<S: Source>(
    source: &mut S,
    buffer: &mut [u8],
    bytes: &mut Vec<u8>,
) -> Result<usize, ReadError>
    requires { 0 < length buffer.old }
    ensures more { IfOk result (λ n. vec_len bytes.new ≡ vec_len bytes.old + n) }
    ensures bytes { OnOk result ((piece : List ℕ) × (bytes.new.items ≡ bytes.old.items ++ piece)
        × Consumes (S.remaining source.old) (S.remaining source.new) piece) }
    ensures end { IfOk result (λ n. n ≡ 0 → IsAtEnd (S.remaining source.new)) }
    ensures lost { OnErr result ((piece : List ℕ)
        × Consumes (S.remaining source.old) (S.remaining source.new) piece) }
    ensures count { Counts (is_read_fault result) (S.faults source.old) (S.faults source.new) }
{
    let count = source.read(buffer)?;
    bytes.extend_from_slice(&buffer[..count])?;
    Ok(count)
}

/// Reads until the source is at its end, or until more than `limit` bytes have come, and answers all of the
/// bytes that came: where they are at most `limit`, the source was at its end. One read asks for up to 65,536
/// bytes, so that many more than `limit` may come. The first fault of the source ends it with
/// `ReadError::Failed`, and `ReadError::OutOfMemory` comes where memory ran out; after either the bytes that
/// were read are lost.
pub fn read_past_limit<S: Source>(
    alloc: Global,
    source: &mut S,
    limit: usize,
) -> Result<Vec<u8>, ReadError>
    ensures bytes { IfOk result (λ bytes. Consumes (S.remaining source.old) (S.remaining source.new)
        bytes.items) }
    ensures end { IfOk result (λ bytes. length bytes.items ≤ limit → IsAtEnd (S.remaining source.new)) }
    ensures lost { OnErr result ((bytes : List ℕ)
        × Consumes (S.remaining source.old) (S.remaining source.new) bytes) }
    ensures count { Counts (is_read_fault result) (S.faults source.old) (S.faults source.new) }
{
    let mut bytes = Vec::new(alloc);
    let mut buffer = buffer(alloc, CHUNK)?;
    while bytes.len() <= limit {
        if read_more(source, buffer.as_mut_slice(), &mut bytes)? == 0 {
            break;
        }
    }
    Ok(bytes)
}

/// Writes all of the bytes, in as many writes as the sink wants; no bytes need no write. The first write that
/// fails ends it with `Failed`, and the sink then took a front of the bytes, which may be none of them.
pub fn write_all<S: Sink>(sink: &mut S, bytes: &[u8]) -> Result<(), Failed>
    ensures ok { OnOk result (Appends (S.contents sink.old) (S.contents sink.new) bytes.now) }
    ensures front { OnErr result ((n : ℕ) × (n ≤ length bytes.now)
        × Appends (S.contents sink.old) (S.contents sink.new) (take n bytes.now)) }
    ensures other { S.unread sink.new ≡ S.unread sink.old }
    ensures count { Counts (is_err result) (S.faults sink.old) (S.faults sink.new) }
{
    let mut rest = bytes;
    while !rest.is_empty() {
        let count = sink.write(rest)?;
        rest = &rest[count..];
    }
    Ok(())
}
