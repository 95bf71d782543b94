ghost use Rattle.std.specs.Prelude.{◌≡◌, ◌+◌, ◌*◌, ◌^◌, ◌<◌, ◌≤◌, ◌↔◌, IsTrue, OnOk, IfOk, IfErr, List, ℕ};
ghost use Rattle.std.specs.Prelude.{length, take, drop, codes};
ghost use Rattle.std.specs.Int.{w32};
ghost use Rattle.lsvd_bytes.specs.Places.{bytes_at, number_at};
ghost use Rattle.super_format.specs.declared.reading.SuperReadError.TheVariants.{BadSuper, OutOfMemory};
ghost use Rattle.super_format.specs.declared.reason.SuperReason.TheVariants.{Ancestors};
ghost use Rattle.super_format.specs.Super.{super_in, geometry_with, keeps_limits, IsSuper};
ghost use Rattle.super_format.specs.Tests.{PassesTestsBefore, IsSuperRefusedAs, IsSuperReason, BeginsWith};

use crate::ancestors::{ANCESTOR_BYTES, read_ancestors};
use crate::reason::SuperReason;
use crate::super_object::Super;
use crate::{
    BATCH_AT, COUNT_AT, HEAD_BYTES, MAGIC, MAX_WRITE_AT, SECTORS_AT, UUID_AT, VERSION, VERSION_AT,
};
use clone_chain::Chain;
use lsvd_base::Geometry;
use lsvd_bytes::{read_16_bytes, read_u32, read_u64};
use std::alloc::{AllocError, Global};
use thiserror::Error;
use uuid::Uuid;

/// Why a super object was not read.
#[derive(Clone, Copy, Debug, PartialEq, Eq, Error)]
pub enum SuperReadError {
    /// The bytes are no super object of the volume.
    #[error("bad super object: {reason}")]
    BadSuper { reason: SuperReason },
    /// There is no memory for the ancestors.
    #[error("out of memory")]
    OutOfMemory,
}

impl From<SuperReason> for SuperReadError {
    ghost from_gives = { λ reason e. e ≡ BadSuper reason };

    fn from(reason: SuperReason) -> SuperReadError {
        SuperReadError::BadSuper { reason }
    }
}

impl From<AllocError> for SuperReadError {
    ghost from_gives = { λ _ e. e ≡ OutOfMemory };

    fn from(_e: AllocError) -> SuperReadError {
        SuperReadError::OutOfMemory
    }
}

impl Super {
    /// The bytes of the longest super object, which has 15 ancestors.
    pub const MAX_BYTES: u64 = 408;

    /// Reads all bytes of an object as the super object of the volume with this uuid. The error is that
    /// memory ran out, or it comes exactly where they are none, and names the first test that they fail.
    pub fn read(alloc: Global, bytes: &[u8], uuid: Uuid) -> Result<Super, SuperReadError>
        ensures ok { IfOk result (IsSuper bytes.now uuid) }
        ensures refused { IfErr result (IsSuperReason bytes.now uuid) }
    {
        test_head(bytes, uuid)?;
        let ancestors = read_ancestors(alloc, &bytes[HEAD_BYTES..], read_u32(bytes, COUNT_AT))?;
        let Some(chain) = Chain::from_ancestors(ancestors) else {
            return Err(SuperReason::Ancestors.into());
        };
        if chain.level_of(uuid).is_some() {
            return Err(SuperReason::Ancestors.into());
        }
        let sizes = sizes_in(bytes);
        Ok(Super {
            uuid,
            sectors: sizes.sectors,
            max_write: sizes.max_write,
            batch: sizes.batch,
            chain,
        })
    }

    /// Why an object is no super object of the volume with this uuid that has `len` bytes, more than
    /// `MAX_BYTES`, and begins with these `MAX_BYTES` (conditions): the first test that it fails.
    pub fn refusal_of_long(front: &[u8], len: u64, uuid: Uuid) -> SuperReason
        requires front { length front.now ≡ 408 }
        requires long { 408 < len }
        ensures { (bytes : List ℕ) → BeginsWith front.now len bytes → IsSuperRefusedAs bytes uuid result }
    {
        let count = u64::from(read_u32(front, COUNT_AT));
        if len != HEAD_BYTES as u64 + ANCESTOR_BYTES as u64 * count {
            return SuperReason::Length;
        }
        if !has_magic(front) {
            return SuperReason::Magic;
        }
        if !has_version(front) {
            return SuperReason::Version;
        }
        if !has_uuid(front, uuid) {
            return SuperReason::Uuid;
        }
        // So many bytes are those of too many ancestors.
        SuperReason::Limits
    }
}

// Makes each test but that of the ancestors.
fn test_head(bytes: &[u8], uuid: Uuid) -> Result<(), SuperReason>
    ensures passed { OnOk result (PassesTestsBefore bytes.now uuid Ancestors) }
    ensures refused { IfErr result (IsSuperRefusedAs bytes.now uuid) }
{
    if !has_its_length(bytes) {
        return Err(SuperReason::Length);
    }
    if !has_magic(bytes) {
        return Err(SuperReason::Magic);
    }
    if !has_version(bytes) {
        return Err(SuperReason::Version);
    }
    if !has_uuid(bytes, uuid) {
        return Err(SuperReason::Uuid);
    }
    if !keeps_limits(bytes) {
        return Err(SuperReason::Limits);
    }
    Ok(())
}

// Whether there are as many bytes as the count of ancestors in them makes.
fn has_its_length(bytes: &[u8]) -> bool
    ensures { IsTrue result ↔ (length bytes.now ≡ 48 + 24 * number_at w32 44 bytes.now) }
{
    bytes.len() >= HEAD_BYTES
        && bytes.len() == HEAD_BYTES + ANCESTOR_BYTES * read_u32(bytes, COUNT_AT) as usize
}

// Whether they begin with the magic.
fn has_magic(bytes: &[u8]) -> bool
    requires { 48 ≤ length bytes.now }
    ensures { IsTrue result ↔ (take 8 bytes.now ≡ codes "LSVDSUP1") }
{
    &bytes[..VERSION_AT] == MAGIC.as_slice()
}

// Whether they have the version that is known.
fn has_version(bytes: &[u8]) -> bool
    requires { 48 ≤ length bytes.now }
    ensures { IsTrue result ↔ (number_at w32 8 bytes.now ≡ 1) }
{
    read_u32(bytes, VERSION_AT) == VERSION
}

// Whether they have this uuid.
fn has_uuid(bytes: &[u8], uuid: Uuid) -> bool
    requires { 48 ≤ length bytes.now }
    ensures { IsTrue result ↔ (bytes_at 12 16 bytes.now ≡ uuid) }
{
    read_16_bytes(bytes, UUID_AT) == uuid.into_bytes()
}

// Whether the sizes in them keep their limits, and there are at most 15 ancestors.
fn keeps_limits(bytes: &[u8]) -> bool
    requires { 48 ≤ length bytes.now }
    ensures { result ≡ keeps_limits (super_in bytes.now) }
{
    sizes_in(bytes).is_within_limits() && read_u32(bytes, COUNT_AT) < Chain::MAX_LEVELS
}

// The sizes that stand in them, with the longest log.
fn sizes_in(bytes: &[u8]) -> Geometry
    requires { 48 ≤ length bytes.now }
    ensures { result ≡ geometry_with (super_in bytes.now) (2 ^ 31) }
{
    Geometry {
        sectors: read_u64(bytes, SECTORS_AT),
        max_write: u64::from(read_u32(bytes, MAX_WRITE_AT)),
        batch: u64::from(read_u32(bytes, BATCH_AT)),
        log: Geometry::MAX_LOG,
    }
}
