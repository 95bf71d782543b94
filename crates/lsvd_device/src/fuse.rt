ghost use Rattle.std.specs.Prelude.{◌≡◌, ℕ, length, ◌-◌, ◌<◌, ◌≤◌, ◌⊎◌, ◌^◌, Some, None, IfOk, OnOk, OnErr};
ghost use Rattle.std.specs.Prelude.{IsOk, IsSome};
ghost use Rattle.lsvd_fault.specs.Faults.{CountsOne};
ghost use Rattle.lsvd_device.specs.Calls.{Fuse, fuse_of, fuse_after};
ghost use Rattle.lsvd_device.specs.Device.{IsDisk, HoldsNow};
ghost use Rattle.lsvd_device.specs.Fuse.{with_fuse_before, with_new_fuse};
ghost use Rattle.lsvd_device.specs.Medium.{MayLeave};
ghost use Rattle.lsvd_device.specs.Stop.{left_in_order, IsStopped};
ghost use Rattle.lsvd_device.specs.Memory.{HasRoom};

use crate::disk::{Disk, StoppedDisk};
use crate::fate::Fate;
use crate::memory::MemDisk;
use lsvd_fault::Failed;
use std::alloc::{AllocError, Global};
use std::marker::Model;

/// A disk with a fuse before it: a number of calls are passed on, and each later one fails without being
/// made.
#[derive(Drop)]
pub struct FuseDisk<D: Disk> {
    disk: D,
    /// The calls that are still passed on; None is for no limit.
    left: Option<u64>,
    /// The calls that the fuse failed.
    failed: u64,
}

impl<D: Disk> Model for FuseDisk<D> {
    ghost use Rattle.lsvd_device.specs.Device.{DiskState, IsDisk};
    ghost use Rattle.lsvd_device.specs.Fuse.{with_fuse_before};

    ghost Value = { DiskState };

    ghost view = { λ f. with_fuse_before f.left f.failed (D.state f.disk) };

    ghost invariant = { λ f. IsDisk (D.state f.disk) };
}

impl<D: Disk> FuseDisk<D> {
    /// The disk with a fuse that passes this many calls, or all where there is no limit. The disk is one (a
    /// condition, which its `len` tells).
    pub fn new(disk: D, fuse: Option<u64>) -> FuseDisk<D>
        requires { IsDisk (D.state disk) }
        ensures state { result ≡ with_fuse_before fuse 0 (D.state disk) }
        ensures is_disk { IsDisk result }
    {
        FuseDisk {
            disk,
            left: fuse,
            failed: 0,
        }
    }

    /// Gives the disk behind the fuse back.
    pub fn into_disk(self) -> D
        ensures { (fuse : Fuse) × (failed : ℕ) × (self ≡ with_fuse_before fuse failed (D.state result)) }
    {
        self.disk
    }
}

impl FuseDisk<MemDisk> {
    /// Makes room on the disk in memory for `calls` more writes and syncs, and for `bytes` bytes of writes,
    /// so that none of them fails but by the fuse. The one error is that memory ran out, which comes only
    /// where that room is missing. What the disk holds, and its count, are as before.
    pub fn reserve(&mut self, calls: u64, bytes: u64) -> Result<(), AllocError>
        ensures room { OnOk result (HasRoom calls bytes self.new.budget) }
        ensures succeeds { HasRoom calls bytes self.old.budget → IsOk result }
        ensures fuse { fuse_of self.new.budget ≡ fuse_of self.old.budget }
        ensures rest { self.new ≡ record self.old { budget = self.new.budget } }
    {
        self.disk.reserve(calls, bytes)
    }

    /// Makes the disk pass this many further calls, or all where there is no limit.
    pub fn set_fuse(&mut self, fuse: Option<u64>)
        ensures fuse { self.new.budget ≡ with_new_fuse fuse self.old.budget }
        ensures rest { self.new ≡ record self.old { budget = self.new.budget } }
    {
        self.disk.has_no_fuse();
        self.left = fuse;
    }
}

impl<D: StoppedDisk> StoppedDisk for FuseDisk<D> {
    fn pending(&self) -> usize {
        self.disk.pending()
    }

    fn stopped(&self, alloc: Global, fates: &[Fate]) -> Result<MemDisk, AllocError> {
        self.disk.stopped(alloc, fates)
    }
}

impl<D: Disk> Disk for FuseDisk<D> {
    ghost state = { λ d. d };

    fn len(&self) -> u64 {
        self.disk.len()
    }

    fn read(&mut self, at: u64, buf: &mut [u8]) -> Result<(), Failed> {
        pass(&mut self.left, &mut self.failed)?;
        self.disk.read(at, buf)
    }

    fn write(&mut self, at: u64, piece: &[u8]) -> Result<(), Failed> {
        pass(&mut self.left, &mut self.failed)?;
        self.disk.write(at, piece)
    }

    fn sync(&mut self) -> Result<(), Failed> {
        pass(&mut self.left, &mut self.failed)?;
        self.disk.sync()
    }

    fn hand_over(&mut self) {
        self.disk.hand_over();
    }

    fn faults(&self) -> u64 {
        self.disk.faults().saturating_add(self.failed)
    }
}

// Passes a call on, which burns the fuse by one; none is left where it fails.
fn pass(left: &mut Option<u64>, failed: &mut u64) -> Result<(), Failed>
    ensures ok { OnOk result ((left.old ≡ Some 0 → ⊥) × (left.new ≡ fuse_after left.old 1)
        × (failed.new ≡ failed.old)) }
    ensures err { OnErr result ((left.old ≡ Some 0) × (left.new ≡ Some 0) × CountsOne failed.old failed.new) }
{
    match left {
        None => Ok(()),
        Some(0) => {
            *failed = failed.saturating_add(1);
            Err(Failed)
        }
        Some(calls) => {
            *calls -= 1;
            Ok(())
        }
    }
}
