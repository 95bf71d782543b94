ghost use Rattle.std.specs.Prelude.{◌≡◌, ℕ, ◌<◌, ◌≤◌, List, length, take, IfOk, OnErr, is_err};
ghost use Rattle.std.specs.Io.KnownBytes.{Consumes, IsAtEnd};
ghost use Rattle.lsvd_fault.specs.Faults.{Counts};
ghost use Rattle.nbd_wire.specs.Reading.{ReadsAtMostOf};

use lsvd_fault::{Failed, Source};

// Fills the buffer, in as many reads as the link wants, and answers how many bytes came: fewer than it has
// room for only where the input is at its end. Nothing is read past them.
pub(crate) fn fill<K: Source>(link: &mut K, buf: &mut [u8]) -> Result<usize, Failed>
    ensures bound { IfOk result (λ n. n ≤ length buf.new) }
    ensures bytes { IfOk result (λ n. Consumes (K.remaining link.old) (K.remaining link.new)
        (take n buf.new)) }
    ensures end { IfOk result (λ n. n < length buf.new → IsAtEnd (K.remaining link.new)) }
    ensures lost { OnErr result (ReadsAtMostOf (length buf.new) (K.remaining link.old)
        (K.remaining link.new)) }
    ensures other { K.written link.new ≡ K.written link.old }
    ensures count { Counts (is_err result) (K.faults link.old) (K.faults link.new) }
{
    let mut filled = 0;
    while filled < buf.len() {
        let count = link.read(&mut buf[filled..])?;
        if count == 0 {
            return Ok(filled);
        }
        filled += count;
    }
    Ok(filled)
}
