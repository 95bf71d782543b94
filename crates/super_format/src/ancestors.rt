ghost use Rattle.std.specs.Prelude.{◌≡◌, ◌+◌, ◌*◌, ◌≤◌, ◌++◌, All, IfOk, length, take, drop};
ghost use Rattle.super_format.specs.Ancestors.{ancestor_bytes, chain_bytes, HasAncestorWidths, ancestor_in};
ghost use Rattle.super_format.specs.Ancestors.{chain_in};

use clone_chain::Ancestor;
use lsvd_bytes::{read_16_bytes, read_u64, write_16_bytes, write_u64};
use std::alloc::{AllocError, Global};
use uuid::Uuid;

// The bytes of an ancestor: its uuid, and then the number of its checkpoint.
pub(crate) const ANCESTOR_BYTES: usize = 24;

// Where the number of the checkpoint stands in them.
const CHECKPOINT_AT: usize = 16;

// Writes ancestors into as many bytes as they have.
pub(crate) fn write_ancestors(ancestors: &[Ancestor], bytes: &mut [u8])
    requires { length bytes.old ≡ 24 * length ancestors.now }
    ensures bytes { bytes.new ≡ chain_bytes ancestors.now }
    ensures widths { All HasAncestorWidths ancestors.now }
{
    for (index, ancestor) in ancestors.iter().enumerate() {
        write_ancestor(ancestor, bytes, ANCESTOR_BYTES * index);
    }
}

// Writes an ancestor into the 24 bytes from `at` on.
fn write_ancestor(ancestor: &Ancestor, bytes: &mut [u8], at: usize)
    requires { at + 24 ≤ length bytes.old }
    ensures bytes { bytes.new ≡ take at bytes.old ++ ancestor_bytes ancestor.now ++ drop (at + 24) bytes.old }
    ensures widths { HasAncestorWidths ancestor.now }
{
    let Ancestor { uuid, checkpoint } = *ancestor;
    let uuid = uuid.into_bytes();
    write_16_bytes(bytes, at, &uuid);
    write_u64(bytes, at + CHECKPOINT_AT, checkpoint);
}

// The first `count` ancestors in the bytes. The one error is that memory ran out.
pub(crate) fn read_ancestors(
    alloc: Global,
    bytes: &[u8],
    count: u32,
) -> Result<Vec<Ancestor>, AllocError>
    requires { 24 * count ≤ length bytes.now }
    ensures { IfOk result (λ ancestors. ancestors.items ≡ chain_in count bytes.now) }
{
    let mut ancestors = Vec::with_capacity(alloc, count as usize)?;
    let mut rest = bytes;
    for _ in 0..count {
        ancestors.push(read_ancestor(rest))?;
        rest = &rest[ANCESTOR_BYTES..];
    }
    Ok(ancestors)
}

// The ancestor that the bytes begin with.
fn read_ancestor(bytes: &[u8]) -> Ancestor
    requires { 24 ≤ length bytes.now }
    ensures { result ≡ ancestor_in bytes.now }
{
    Ancestor {
        uuid: Uuid::from_bytes(read_16_bytes(bytes, 0)),
        checkpoint: read_u64(bytes, CHECKPOINT_AT),
    }
}
