ghost use Rattle.std.specs.Prelude.{◌≡◌, ◌+◌, ◌≤◌, ℕ, length, take, drop, Some, None, IfOk, OnOk, OnErr};
ghost use Rattle.std.specs.Prelude.{is_ok};
ghost use Rattle.lsvd_device.specs.Medium.{MayLeave, after_write, after_sync};
ghost use Rattle.lsvd_device.specs.Calls.{fuse_of, read_cost, write_cost, sync_cost, PassesNone};
ghost use Rattle.lsvd_device.specs.Device.{DiskState, IsDisk, HoldsNow, moments_after, FailsToWrite};
ghost use Rattle.lsvd_device.specs.Device.{MakesCalls, FailsAlone};
ghost use Rattle.lsvd_device.specs.Stop.{left_in_order, IsStopped};

use crate::fate::Fate;
use crate::memory::MemDisk;
use lsvd_fault::Failed;
use std::alloc::{AllocError, Global};

/// A device of a fixed number of bytes, which keeps what was synced over a stop of the machine.
///
/// Between two syncs that succeed a stop may leave any bytes in each range that was written, a failed write's
/// range included, and every other byte as it was at the first of them. No other bytes are ever changed.
pub trait Disk {
    /// What it holds now and held before, its count of faults, and what it still passes.
    ghost state: { Self → DiskState };

    /// Its length in bytes, which no call changes.
    fn len(&self) -> u64
        ensures size { result ≡ (state self.now).size }
        ensures disk { IsDisk (state self.now) };

    /// Reads the bytes from `at` on into the whole of `buf`. The range lies inside the disk (a condition).
    /// `Failed` comes where the device could not be read; the read was counted, and any bytes stand in `buf`.
    fn read(&mut self, at: u64, buf: &mut [u8]) -> Result<(), Failed>
        requires { at + length buf.old ≤ (state self.old).size }
        ensures bytes { OnOk result (HoldsNow (λ now. buf.new ≡ take (length buf.old) (drop at now.bytes))
            (state self.old).moments) }
        ensures moments { (state self.new).moments ≡ (state self.old).moments }
        ensures call { MakesCalls read_cost (is_ok result) (state self.old) (state self.new) }
        ensures blown { PassesNone (state self.old).budget
            → FailsAlone (is_ok result) (state self.old) (state self.new) }
        ensures disk { IsDisk (state self.new) };

    /// Writes the whole of `piece` from `at` on. The range lies inside the disk (a condition). `Failed` comes
    /// where the device could not be written; the write was counted, and any bytes may stand in its range.
    fn write(&mut self, at: u64, piece: &[u8]) -> Result<(), Failed>
        requires { at + length piece.now ≤ (state self.old).size }
        ensures ok { OnOk result ((state self.new).moments ≡ moments_after (after_write at piece.now)
            (state self.old).moments) }
        ensures err { OnErr result (FailsToWrite at (length piece.now) (state self.old).moments
            (state self.new).moments) }
        ensures call { MakesCalls (write_cost (length piece.now)) (is_ok result) (state self.old)
            (state self.new) }
        ensures blown { PassesNone (state self.old).budget
            → FailsAlone (is_ok result) (state self.old) (state self.new) }
        ensures disk { IsDisk (state self.new) };

    /// Makes what was written before outlast a stop. `Failed` comes where the device could not be synced; the
    /// sync was counted, and a stop may leave what it might have left before.
    fn sync(&mut self) -> Result<(), Failed>
        ensures ok { OnOk result ((state self.new).moments ≡ moments_after after_sync
            (state self.old).moments) }
        ensures err { OnErr result ((state self.new).moments ≡ (state self.old).moments) }
        ensures call { MakesCalls sync_cost (is_ok result) (state self.old) (state self.new) }
        ensures blown { PassesNone (state self.old).budget
            → FailsAlone (is_ok result) (state self.old) (state self.new) }
        ensures disk { IsDisk (state self.new) };

    /// Hands to the device what it gathered of writes, if it gathers any, so that they outlast the end of
    /// this program. For its user nothing changes. What the device does not take stays gathered and is handed
    /// over with a later call; where that fails too, it is told there.
    fn hand_over(&mut self)
        ensures { state self.new ≡ state self.old };

    /// How many calls have failed since the disk was made. At `u64::MAX` the count stands.
    fn faults(&self) -> u64
        ensures { result ≡ (state self.now).faults };
}

/// A disk that tells what a stop of the machine leaves of it: one in memory, for tests and for scripts of
/// stops.
pub trait StoppedDisk: Disk {
    /// How many writes were made since the last sync.
    fn pending(&self) -> usize
        ensures { HoldsNow (λ now. result ≡ length now.pending) (Self.Disk.state self.now).moments };

    /// The disk after a stop of the machine: each write that was not synced has met its fate, and nothing is
    /// pending. The fates are in the order of the writes, and as many as `pending` says (a condition). The
    /// disk that is left has no fuse. The one error is that memory ran out.
    fn stopped(&self, alloc: Global, fates: &[Fate]) -> Result<MemDisk, AllocError>
        requires { HoldsNow (λ now. length fates.now ≡ length now.pending)
            (Self.Disk.state self.now).moments }
        ensures size { IfOk result (λ disk. disk.size ≡ (Self.Disk.state self.now).size) }
        ensures left { IfOk result (λ disk. IsStopped fates.now (Self.Disk.state self.now).moments
            disk.moments) }
        ensures may_leave { OnOk result
            (HoldsNow (λ now. MayLeave now (left_in_order fates.now (Self.Disk.state self.now).moments))
            (Self.Disk.state self.now).moments) }
        ensures fuse { IfOk result (λ disk. fuse_of disk.budget ≡ Some None) }
        ensures is_disk { IfOk result IsDisk };
}
