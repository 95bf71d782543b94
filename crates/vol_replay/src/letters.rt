ghost use Rattle.std.specs.Prelude.{◌≡◌, IfOk, IsTrue, length, map};
ghost use Rattle.std.specs.List.{list_all};
ghost use Rattle.transcript.specs.Letters.{is_letter, is_object_letter, is_dash, fits_writes, fits_objects};
ghost use Rattle.transcript.specs.Letters.{fate_of, fates_of};

use lsvd_device::Fate;
use std::alloc::{AllocError, Global};

/// Whether the word keeps all, or has a letter for each of this many writes.
pub(crate) fn fits_writes(pending: usize, word: &[u8]) -> bool
    ensures { result ≡ fits_writes pending word.now }
{
    is_dash(word) || (word.len() == pending && word.iter().all(|b| is_letter(*b)))
}

/// Whether the word lands none, or has a letter for each of this many objects.
pub(crate) fn fits_objects(count: usize, word: &[u8]) -> bool
    ensures { result ≡ fits_objects count word.now }
{
    is_dash(word) || (word.len() == count && word.iter().all(|b| is_object_letter(*b)))
}

/// The fates of `pending` writes that were not synced, which the word fits (a condition). The one error is
/// out of memory.
pub(crate) fn fates_of(alloc: Global, word: &[u8], pending: usize) -> Result<Vec<Fate>, AllocError>
    requires { IsTrue (fits_writes pending word.now) }
    ensures fates { IfOk result (λ fates. fates.items ≡ fates_of pending word.now) }
    ensures count { IfOk result (λ fates. length fates.items ≡ pending) }
{
    if is_dash(word) {
        return vec![in alloc; Fate::Kept; pending];
    }
    fates_of_letters(alloc, word)
}

// The fate of each letter.
fn fates_of_letters(alloc: Global, word: &[u8]) -> Result<Vec<Fate>, AllocError>
    ensures { IfOk result (λ fates. fates.items ≡ map fate_of word.now) }
{
    word.iter().map(|letter| fate_of(*letter)).collect(alloc)
}

// What becomes of a write that has this letter.
fn fate_of(letter: u8) -> Fate
    ensures { result ≡ fate_of letter }
{
    match letter {
        b'k' => Fate::Kept,
        b'o' => Fate::Old,
        b'z' => Fate::Zeros,
        _ => Fate::Torn,
    }
}

/// Whether the word keeps all writes, and lands no object.
pub(crate) fn is_dash(word: &[u8]) -> bool
    ensures { result ≡ is_dash word.now }
{
    word == b"-".as_slice()
}

// Whether a write has this letter.
fn is_letter(letter: u8) -> bool
    ensures { result ≡ is_letter letter }
{
    letter == b'k' || letter == b'o' || letter == b'z' || letter == b't'
}

// Whether an object has this letter.
fn is_object_letter(letter: u8) -> bool
    ensures { result ≡ is_object_letter letter }
{
    letter == b'y' || letter == b'n'
}
