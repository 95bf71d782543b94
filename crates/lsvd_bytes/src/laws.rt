ghost use Rattle.std.specs.Int.{w16, w32, w64};
ghost use Rattle.lsvd_bytes.specs.Laws.{ReadsBytesAgain, ReadsNumberAgain, KeepsLength, KeepsOtherBytes};
ghost use Rattle.lsvd_bytes.specs.Laws.{KeepsOtherNumbers, RewritesBytes, RewritesNumber};

/// A law: what was written is read again at the same place.
pub fn what_is_written_is_read_again()
    ensures bytes { ReadsBytesAgain }
    ensures u16 { ReadsNumberAgain w16 }
    ensures u32 { ReadsNumberAgain w32 }
    ensures u64 { ReadsNumberAgain w64 }
{}

/// A law: a write changes neither the length nor what is read before its place or past its end.
pub fn a_write_changes_no_other_bytes()
    ensures length { KeepsLength }
    ensures bytes { KeepsOtherBytes }
    ensures numbers { KeepsOtherNumbers }
{}

/// A law: bytes that were read and are written again at the same place are as they were.
pub fn what_is_read_is_written_unchanged()
    ensures bytes { RewritesBytes }
    ensures u16 { RewritesNumber w16 }
    ensures u32 { RewritesNumber w32 }
    ensures u64 { RewritesNumber w64 }
{}
