ghost use Rattle.std.specs.Prelude.{◌≡◌, ℕ, ◌+◌, ◌≤◌, ◌↔◌, IsTrue, IfSome, IfNone, length, take, drop};
ghost use Rattle.std.specs.Prelude.{replicate, codes};
ghost use Rattle.commit_body.specs.declared.body.CommitBody.{CommitBody};
ghost use Rattle.commit_body.specs.Body.{filler, IsBody};
ghost use Rattle.commit_body.specs.Fields.{mark_in, body_in};

use crate::body::{CommitBody, Mark, is_within};
use crate::{EPOCH_AT, FILLER_AT, HEAD_AT, MAGIC, NUMBER_AT, SLOTS, TAIL_AT, UUID_AT};
use lsvd_bytes::{is_zeros, read_16_bytes, read_u64};

/// Reads a sector of 512 bytes (a condition) as the body of a slot, for a log of this many sectors: what the
/// commit says, and its number. None is for a sector that is no such body, and for a slot but 0, 1 and 2.
pub fn read_body(sector: &[u8], log: u64, slot: u64) -> Option<(CommitBody, u64)>
    requires { length sector.now ≡ 512 }
    ensures found { IfSome result (λ read. IsBody sector.now log slot read.0 read.1) }
    ensures none { IfNone result ((body : CommitBody) (number : ℕ)
        → IsBody sector.now log slot body number → ⊥) }
{
    if !has_magic(sector) || !has_filler(sector) {
        return None;
    }
    let number = read_u64(sector, NUMBER_AT);
    let body = body_in(sector);
    if number % SLOTS != slot || !is_within(&body, log) {
        return None;
    }
    Some((body, number))
}

// Whether the sector begins with the magic.
fn has_magic(sector: &[u8]) -> bool
    requires { 8 ≤ length sector.now }
    ensures { IsTrue result ↔ (take 8 sector.now ≡ codes "LSVDCMT1") }
{
    &sector[..UUID_AT] == MAGIC.as_slice()
}

// Whether the bytes after the head are all zeros.
fn has_filler(sector: &[u8]) -> bool
    requires { length sector.now ≡ 512 }
    ensures { IsTrue result ↔ (drop 72 sector.now ≡ filler) }
{
    is_zeros(&sector[FILLER_AT..])
}

// The body with the bytes and the numbers of the sector.
fn body_in(sector: &[u8]) -> CommitBody
    requires { 72 ≤ length sector.now }
    ensures { result ≡ body_in sector.now }
{
    CommitBody {
        uuid: read_16_bytes(sector, UUID_AT),
        epoch: read_u64(sector, EPOCH_AT),
        tail: mark_in(sector, TAIL_AT),
        head: mark_in(sector, HEAD_AT),
    }
}

// The mark with the numbers in the 16 bytes from `at` on.
fn mark_in(sector: &[u8], at: usize) -> Mark
    requires { at + 16 ≤ length sector.now }
    ensures { result ≡ mark_in at sector.now }
{
    Mark {
        position: read_u64(sector, at),
        seq: read_u64(sector, at + 8),
    }
}
