ghost use Rattle.std.specs.Prelude.{ℕ, ◌≡◌, ◌+◌, ◌-◌, ◌*◌, ◌%◌, ◌^◌, ◌<◌, ◌≤◌, length, min, replicate};
ghost use Rattle.lsvd_base.specs.Laws.{EndsBy};
ghost use Rattle.lsvd_bytes.specs.Window.{Pastes};
ghost use Rattle.plain_disk.specs.Window.{Overlays};

use lsvd_base::{Entry, SECTOR_BYTES};
use lsvd_bytes::paste;

/// Puts what the entry changes over the bytes of a window: whole sectors, of which `lba` is the first.
pub(crate) fn overlay(window: &mut [u8], lba: u64, entry: &Entry)
    requires whole { length window.old % 512 ≡ 0 }
    requires place { lba ≤ 2 ^ 54 }
    requires ends { EndsBy (2 ^ 54) entry.now }
    ensures { Overlays lba entry.now window.old window.new }
{
    match entry {
        Entry::Write { lba: at, body } => paste(
            window,
            SECTOR_BYTES * lba,
            SECTOR_BYTES * *at,
            body.as_bytes(),
        ),
        Entry::Zero { lba: at, sectors } => clear(window, lba, *at, *sectors),
    }
}

// Puts zeros at those of `sectors` sectors from `at` on which the window shows; its first one is `lba`.
fn clear(window: &mut [u8], lba: u64, at: u64, sectors: u64)
    requires whole { length window.old % 512 ≡ 0 }
    requires ends { at + sectors < 2 ^ 64 }
    ensures { Pastes (512 * lba) (512 * at) (replicate (512 * sectors) 0) window.old window.new }
{
    let (start, end) = shown(window, lba, at, sectors);
    window[start..end].fill(0);
}

// From which byte to which the window shows `sectors` sectors from `at` on; its first sector is `lba`.
// The two are the same where it shows none of them.
fn shown(window: &[u8], lba: u64, at: u64, sectors: u64) -> (usize, usize)
    requires whole { length window.now % 512 ≡ 0 }
    requires ends { at + sectors < 2 ^ 64 }
    ensures start { result.0 ≡ min (length window.now) (512 * at - 512 * lba) }
    ensures end { result.1 ≡ min (length window.now) (512 * at + 512 * sectors - 512 * lba) }
{
    let held = window.len() as u64 / SECTOR_BYTES;
    let (start, end) = shown_sectors(held, lba, at, sectors);
    (
        (start * SECTOR_BYTES) as usize,
        (end * SECTOR_BYTES) as usize,
    )
}

/// From which sector to which a window that holds `held` sectors shows `sectors` of them from `at` on; its
/// first one is `lba`. The two are the same where it shows none of them.
pub(crate) fn shown_sectors(held: u64, lba: u64, at: u64, sectors: u64) -> (u64, u64)
    requires { at + sectors < 2 ^ 64 }
    ensures start { result.0 ≡ min held (at - lba) }
    ensures end { result.1 ≡ min held (at + sectors - lba) }
{
    (
        at.saturating_sub(lba).min(held),
        (at + sectors).saturating_sub(lba).min(held),
    )
}
