ghost use Rattle.std.specs.Prelude.{IfOk, OnErr};
ghost use Rattle.super_format.specs.declared.hold.Hold.{Hold};
ghost use Rattle.super_format.specs.Hold.{IsHold};

use crate::numbered::{self, is_numbered, write_numbered};
use lsvd_base::ObjectBytes;
use std::alloc::{AllocError, Global};
use thiserror::Error;
use uuid::Uuid;

/// The bytes are not the hold on the expected checkpoint of the volume.
#[derive(Clone, Copy, Debug, PartialEq, Eq, Error)]
#[error("not the hold that its name says")]
pub struct BadHold;

/// A hold on a checkpoint of a volume, from which a clone was made: the checkpoint is to stay in the store,
/// and so are the objects that it maps.
#[derive(Clone, Copy, Debug, PartialEq, Eq)]
pub struct Hold {
    /// The volume's uuid.
    pub uuid: Uuid,
    /// The checkpoint's number, which is that of the hold's name.
    pub checkpoint: u64,
}

impl Hold {
    /// How many bytes it has.
    pub const BYTES: usize = numbered::BYTES;

    // The bytes that it begins with.
    const MAGIC: [u8; 8] = *b"LSVDHLD1";

    /// Its bytes. The one error is that memory ran out.
    pub fn write(&self, alloc: Global) -> Result<ObjectBytes, AllocError>
        ensures { IfOk result (λ object. IsHold object self.now.uuid self.now.checkpoint self.now) }
    {
        write_numbered(alloc, &Self::MAGIC, self.uuid, self.checkpoint)
    }

    /// Reads all bytes of an object as the hold on this checkpoint of the volume with this uuid. The error
    /// comes exactly where they are none.
    pub fn read(bytes: &[u8], uuid: Uuid, checkpoint: u64) -> Result<Hold, BadHold>
        ensures ok { IfOk result (IsHold bytes.now uuid checkpoint) }
        ensures none { OnErr result ((hold : Hold) → IsHold bytes.now uuid checkpoint hold → ⊥) }
    {
        if !is_numbered(bytes, &Self::MAGIC, uuid, checkpoint) {
            return Err(BadHold);
        }
        Ok(Hold { uuid, checkpoint })
    }
}
