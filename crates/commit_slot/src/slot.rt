ghost use Rattle.std.specs.Prelude.{◌≡◌, ◌+◌, ◌%◌, ◌<◌, ◌≤◌};
ghost use Rattle.commit_slot.specs.Slots.{log_of, body_at, gate_at};

use commit_body::SLOTS;
use lsvd_base::SECTOR_BYTES;

// The bytes of a slot: the sector of its body, and the one that begins with its gate.
const SLOT_BYTES: u64 = 1_024;

// The bytes of the three slots.
pub(crate) const SLOTS_BYTES: usize = 3_072;

/// The byte of the device at which its log begins.
pub const LOG_START: u64 = 4_096;

// The gate of a slot that is open.
pub(crate) const OPEN: u8 = 1;

// The gate of a slot that is closed.
pub(crate) const CLOSED: u8 = 0;

// The sectors of the log on a device of this many bytes.
pub(crate) fn log_of(size: u64) -> u64
    requires { 4096 ≤ size }
    ensures { result ≡ log_of size }
{
    (size - LOG_START) / SECTOR_BYTES
}

// The slot after one, round the last.
pub(crate) fn slot_after(slot: u64) -> u64
    requires { slot < 3 }
    ensures { result ≡ (slot + 1) % 3 }
{
    (slot + 1) % SLOTS
}

// The slot of the commit with this number.
pub(crate) fn slot_of(number: u64) -> u64
    ensures { result ≡ number % 3 }
{
    number % SLOTS
}

// The byte of the device at which the body of a slot begins.
pub(crate) fn body_at(slot: u64) -> u64
    requires { slot < 3 }
    ensures { result ≡ body_at slot }
{
    SLOT_BYTES * slot
}

// The byte of the device that is a slot's gate.
pub(crate) fn gate_at(slot: u64) -> u64
    requires { slot < 3 }
    ensures { result ≡ gate_at slot }
{
    SLOT_BYTES * slot + SECTOR_BYTES
}
