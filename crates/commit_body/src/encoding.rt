ghost use Rattle.std.specs.Prelude.{◌≡◌, ◌+◌, ◌≤◌, ◌++◌, length, take, drop};
ghost use Rattle.commit_body.specs.Body.{body_bytes, mark_bytes};

use crate::body::{CommitBody, Mark};
use crate::{EPOCH_AT, FILLER_AT, HEAD_AT, MAGIC, NUMBER_AT, TAIL_AT, UUID_AT};
use lsvd_bytes::{write_16_bytes, write_u64};

/// Writes the body, with the number of its commit, into a sector of 512 bytes (a condition).
pub fn write_body(body: &CommitBody, number: u64, sector: &mut [u8])
    requires { length sector.old ≡ 512 }
    ensures { sector.new ≡ body_bytes body.now number }
{
    sector[..UUID_AT].copy_from_slice(&MAGIC);
    write_16_bytes(sector, UUID_AT, &body.uuid);
    write_u64(sector, EPOCH_AT, body.epoch);
    write_u64(sector, NUMBER_AT, number);
    write_mark(sector, TAIL_AT, &body.tail);
    write_mark(sector, HEAD_AT, &body.head);
    sector[FILLER_AT..].fill(0);
}

// Puts the position and the seq into the 16 bytes from `at` on.
fn write_mark(sector: &mut [u8], at: usize, mark: &Mark)
    requires { at + 16 ≤ length sector.old }
    ensures { sector.new ≡ take at sector.old ++ mark_bytes mark.now ++ drop (at + 16) sector.old }
{
    write_u64(sector, at, mark.position);
    write_u64(sector, at + 8, mark.seq);
}
