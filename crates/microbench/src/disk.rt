ghost use Rattle.std.specs.Prelude.{◌≡◌, IfOk};
ghost use Rattle.lsvd_device.specs.Device.{DiskState};

use lsvd_device::Disk;
use lsvd_fault::Failed;
use std::alloc::{AllocError, Global};
use std::marker::Model;

/// A disk that is just its bytes. No call of it fails, and it tells nothing of what it holds: it keeps no
/// changes, as a file keeps none, so that its memory does not grow.
#[derive(Drop)]
pub struct PlainBytes {
    bytes: Vec<u8>,
}

impl Model for PlainBytes {
    ghost use Rattle.std.specs.Prelude.{None, [], length};
    ghost use Rattle.lsvd_device.specs.Device.{DiskState};

    ghost Value = { DiskState };

    ghost view = { λ d. record { size = length d.bytes.items; moments = []; faults = 0; budget = None } };
}

impl PlainBytes {
    /// A disk of `len` bytes, all of them zeros. The one error is that memory ran out.
    pub fn new(alloc: Global, len: u64) -> Result<PlainBytes, AllocError>
        ensures { IfOk result (λ disk. disk.size ≡ len) }
    {
        let bytes = vec![in alloc; 0; len as usize]?;
        Ok(PlainBytes { bytes })
    }
}

impl Disk for PlainBytes {
    ghost state = { λ d. d };

    fn len(&self) -> u64 {
        self.bytes.len() as u64
    }

    fn read(&mut self, at: u64, buf: &mut [u8]) -> Result<(), Failed> {
        let from = at as usize;
        buf.copy_from_slice(&self.bytes[from..from + buf.len()]);
        Ok(())
    }

    fn write(&mut self, at: u64, piece: &[u8]) -> Result<(), Failed> {
        let from = at as usize;
        self.bytes[from..from + piece.len()].copy_from_slice(piece);
        Ok(())
    }

    fn sync(&mut self) -> Result<(), Failed> {
        let _len = self.bytes.len();
        Ok(())
    }

    fn hand_over(&mut self) {}

    fn faults(&self) -> u64 {
        let _len = self.bytes.len();
        0
    }
}
