ghost use Rattle.std.specs.Prelude.{IfOk, OnErr};
ghost use Rattle.super_format.specs.declared.epoch.Epoch.{Epoch};
ghost use Rattle.super_format.specs.Epoch.{IsEpoch};

use crate::numbered::{self, is_numbered, write_numbered};
use lsvd_base::ObjectBytes;
use std::alloc::{AllocError, Global};
use thiserror::Error;
use uuid::Uuid;

/// The bytes are not the epoch of the volume that has the expected number.
#[derive(Clone, Copy, Debug, PartialEq, Eq, Error)]
#[error("not the epoch that its name says")]
pub struct BadEpoch;

/// An epoch of a volume, in which it has one cache device. Each mount without the cache begins the next.
#[derive(Clone, Copy, Debug, PartialEq, Eq)]
pub struct Epoch {
    /// The volume's uuid.
    pub uuid: Uuid,
    /// Its number, which is that of its name.
    pub number: u64,
}

impl Epoch {
    /// How many bytes it has.
    pub const BYTES: usize = numbered::BYTES;

    // The bytes that it begins with.
    const MAGIC: [u8; 8] = *b"LSVDEPO1";

    /// Its bytes. The one error is that memory ran out.
    pub fn write(&self, alloc: Global) -> Result<ObjectBytes, AllocError>
        ensures { IfOk result (λ object. IsEpoch object self.now.uuid self.now.number self.now) }
    {
        write_numbered(alloc, &Self::MAGIC, self.uuid, self.number)
    }

    /// Reads all bytes of an object as the epoch of the volume with this uuid that has this number. The error
    /// comes exactly where they are none.
    pub fn read(bytes: &[u8], uuid: Uuid, number: u64) -> Result<Epoch, BadEpoch>
        ensures ok { IfOk result (IsEpoch bytes.now uuid number) }
        ensures none { OnErr result ((epoch : Epoch) → IsEpoch bytes.now uuid number epoch → ⊥) }
    {
        if !is_numbered(bytes, &Self::MAGIC, uuid, number) {
            return Err(BadEpoch);
        }
        Ok(Epoch { uuid, number })
    }
}
