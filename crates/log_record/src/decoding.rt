ghost use Rattle.std.specs.Prelude.{◌≡◌, ◌+◌, ◌^◌, ◌<◌, ◌≤◌, ◌↔◌, IsTrue, IfOk, IfErr, OnErr};
ghost use Rattle.std.specs.Prelude.{IfSome, IfNone, length, take, drop, replicate, codes};
ghost use Rattle.lsvd_base.specs.Limits.{is_within_limits};
ghost use Rattle.log_room.specs.Room.{sector_bytes};
ghost use Rattle.log_record.specs.Numbers.{HasNumbers, filler, kind_in, sectors_of};
ghost use Rattle.log_record.specs.Grammar.{is_in_range, fits, IsHeader};
ghost use Rattle.log_record.specs.Tests.{IsRefusedAs};
ghost use Rattle.log_record.specs.declared.head.Head.{Head};

use crate::head::{Head, Place};
use crate::reason::{BadRecord, Reason};
use crate::{
    FILLER_AT, KIND_AT, LBA_AT, MAGIC, PAD_KIND, SECTORS_AT, SEQ_AT, WRITE_KIND, ZERO_KIND,
};
use lsvd_base::Geometry;
use lsvd_bytes::{is_zeros, read_u32, read_u64};

/// Reads a sector of 512 bytes as the header with this seq at a place inside the log (conditions).
/// The error names the first test that the sector fails, and comes exactly where it is no such
/// header.
pub fn decode(
    sector: &[u8],
    seq: u64,
    geometry: &Geometry,
    place: &Place,
) -> Result<Head, BadRecord>
    requires sector { length sector.now ≡ sector_bytes }
    requires limits { IsTrue (is_within_limits geometry.now) }
    requires inside { place.now.position < geometry.now.log }
    ensures ok { IfOk result (IsHeader sector.now seq geometry.now place.now) }
    ensures refused { IfErr result (λ e.
        IsRefusedAs sector.now seq geometry.now place.now e.reason) }
    ensures none { OnErr result
        ((head : Head) → IsHeader sector.now seq geometry.now place.now head → ⊥) }
{
    if !has_magic(sector) {
        return refused(Reason::Magic);
    }
    if !has_kind(sector) {
        return refused(Reason::Kind);
    }
    if read_u64(sector, SEQ_AT) != seq {
        return refused(Reason::Seq);
    }
    let Some(head) = head_in_range(sector, geometry, place.position) else {
        return refused(Reason::Range);
    };
    if !has_filler(sector) {
        return refused(Reason::Zeros);
    }
    if !fits(&head, geometry, place) {
        return refused(Reason::Place);
    }
    Ok(head)
}

// The error for this reason.
fn refused(reason: Reason) -> Result<Head, BadRecord>
    ensures { result ≡ Err (record { reason = reason }) }
{
    Err(BadRecord { reason })
}

// Whether the sector begins with the magic.
fn has_magic(sector: &[u8]) -> bool
    requires { 8 ≤ length sector.now }
    ensures { IsTrue result ↔ (take 8 sector.now ≡ codes "LSVDREC1") }
{
    &sector[..KIND_AT] == MAGIC.as_slice()
}

// Whether the sector has one of the three kinds.
fn has_kind(sector: &[u8]) -> bool
    requires { 12 ≤ length sector.now }
    ensures { IsTrue result ↔ ((1 ≤ kind_in sector.now) × (kind_in sector.now ≤ 3)) }
{
    (WRITE_KIND..=PAD_KIND).contains(&read_u32(sector, KIND_AT))
}

// The head with the numbers of the sector, if it is in range. None is where no such head is.
fn head_in_range(sector: &[u8], geometry: &Geometry, position: u64) -> Option<Head>
    requires sector { 36 ≤ length sector.now }
    requires inside { position < geometry.now.log }
    ensures numbers { IfSome result (HasNumbers sector.now) }
    ensures in_range { IfSome result (λ head. IsTrue (is_in_range geometry.now position head)) }
    ensures none { IfNone result ((head : Head) → HasNumbers sector.now head
        → IsTrue (is_in_range geometry.now position head) → ⊥) }
{
    let lba = read_u64(sector, LBA_AT);
    let sectors = read_u64(sector, SECTORS_AT);
    match read_u32(sector, KIND_AT) {
        WRITE_KIND if geometry.may_transfer(lba, sectors) => Some(Head::Write { lba, sectors }),
        ZERO_KIND if 0 < sectors && geometry.covers(lba, sectors) => Some(Head::Zero {
            lba,
            sectors,
        }),
        PAD_KIND if lba == 0 && sectors == geometry.log - 1 - position => Some(Head::Pad {
            sectors,
        }),
        _ => None,
    }
}

// Whether the bytes after the numbers are all zeros.
fn has_filler(sector: &[u8]) -> bool
    requires { length sector.now ≡ sector_bytes }
    ensures { IsTrue result ↔ (drop 36 sector.now ≡ filler) }
{
    is_zeros(&sector[FILLER_AT..])
}

// Whether the record ends by the log's end and by the committed head, and there where it is the
// last.
fn fits(head: &Head, geometry: &Geometry, place: &Place) -> bool
    requires sectors { sectors_of head.now < 2 ^ 63 }
    requires inside { place.now.position < geometry.now.log }
    ensures { result ≡ fits geometry.now place.now head.now }
{
    let size = head.size();
    size <= geometry.log - place.position
        && size <= place.to_head
        && (matches!(head, Head::Pad { .. }) || !place.is_last || size == place.to_head)
}
