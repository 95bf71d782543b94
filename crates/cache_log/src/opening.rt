ghost use Rattle.std.specs.Prelude.{◌≡◌, ◌+◌, ◌*◌, ◌-◌, ◌^◌, ◌<◌, ◌≤◌, IsTrue, IfOk, IfErr, OnOk};
ghost use Rattle.std.specs.Prelude.{IfSome, IfNone, length, true};
ghost use Rattle.lsvd_base.specs.Limits.{is_within_limits};
ghost use Rattle.lsvd_device.specs.Device.{HoldsNow};
ghost use Rattle.log_room.specs.Room.{max_log};
ghost use Rattle.log_record.specs.Grammar.{is_in_range, fits, IsHeader};
ghost use Rattle.commit_body.specs.Body.{MayStand};
ghost use Rattle.commit_slot.specs.OnDisk.{AreOnDisk};
ghost use Rattle.cache_log.specs.Rows.{byte_of, log_sectors, seq_of, position_of, sectors_taken};
ghost use Rattle.cache_log.specs.Reads.{headers_of, headers_of_rows, pieces_in, AreReadOnly};
ghost use Rattle.cache_log.specs.Reads.{opens_without_fault};
ghost use Rattle.cache_log.specs.Opening.{entry_count, AreRecordsInRange, AreRowsOfLog};
ghost use Rattle.cache_log.specs.Opening.{sectors_between, IsBadLog};
ghost use Rattle.cache_log.specs.Headers.{head_of_row, IsPad, HasRow, FitsFrom, IsBadHeader};
ghost use Rattle.cache_log.specs.Headers.{IsBadRow};
ghost use Rattle.cache_log.specs.Pieces.{IsReadAhead};
ghost use Rattle.cache_log.specs.Paid.{Pays};

use crate::error::OpenError;
use crate::reading_ahead::ReadAhead;
use crate::row::Row;
use commit_body::CommitBody;
use commit_slot::Commits;
use log_record::{Head, Place, decode};
use log_room::distance;
use lsvd_base::{Geometry, SECTOR_BYTES};
use lsvd_device::Disk;
use std::alloc::Global;
use std::collections::VecDeque;

// Reads the rows of the log of some commits, from the last one's tail up to its head, in pieces of up
// to a mebibyte.
pub(crate) fn read_rows<D: Disk>(
    alloc: Global,
    commits: &mut Commits<D>,
    geometry: &Geometry,
) -> Result<VecDeque<Row>, OpenError>
    requires limits { IsTrue (is_within_limits geometry.now) }
    requires inside { byte_of geometry.now.log ≤ commits.old.disk.size }
    requires may_stand { MayStand commits.old.body geometry.now.log }
    requires on_disk { AreOnDisk commits.old }
    ensures rows { IfOk result (λ rows. AreRowsOfLog geometry.now commits.old.body rows.items) }
    ensures records { IfOk result (λ rows. HoldsNow
        (λ now. AreRecordsInRange geometry.now commits.old.body rows.items now.bytes)
        commits.old.disk.moments) }
    ensures read { IfOk result (λ rows. AreReadOnly
        (headers_of_rows geometry.now.log commits.old.body.tail.position rows.items) true
        commits.old commits.new) }
    ensures pieces { OnOk result (AreReadOnly
        (pieces_in (sectors_between geometry.now.log commits.old.body)) true
        commits.old commits.new) }
    ensures bad { IfErr result (λ e.
        IsBadLog geometry.now commits.old.body commits.old.disk.moments e) }
    ensures err { IfErr result (λ e.
        AreReadOnly (2 * entry_count commits.old.body) (opens_without_fault e)
        commits.old commits.new) }
{
    let body = commits.body();
    let mut position = body.tail.position;
    let mut to_head = sectors_between(&body, geometry.log);
    let mut ahead = ReadAhead::new(alloc, to_head)?;
    let mut rows = VecDeque::new(alloc);
    for seq in body.tail.seq..body.head.seq {
        let is_last = seq + 1 == body.head.seq;
        let place = Place {
            position,
            to_head,
            is_last,
        };
        let row = read_row(commits, &mut ahead, geometry, &place, seq)?;
        to_head -= row.sectors_taken(geometry.log, position);
        position = row.next(geometry.log);
        rows.push_back(row)?;
    }
    Ok(rows)
}

// The sectors from the body's tail on to its head, round the end of a log of `log` sectors.
pub(crate) fn sectors_between(body: &CommitBody, log: u64) -> u64
    requires log { log ≤ max_log }
    requires may_stand { MayStand body.now log }
    ensures sectors { result ≡ sectors_between log body.now }
    ensures seq { body.now.head.seq < 2 ^ 64 }
{
    if body.tail.seq == body.head.seq {
        0
    } else {
        distance(log, body.tail.position, body.head.position)
    }
}

// Reads the row of the record with this seq at a place, or after the pad that stands there.
fn read_row<D: Disk>(
    commits: &mut Commits<D>,
    ahead: &mut ReadAhead,
    geometry: &Geometry,
    place: &Place,
    seq: u64,
) -> Result<Row, OpenError>
    requires limits { IsTrue (is_within_limits geometry.now) }
    requires inside { byte_of geometry.now.log ≤ commits.old.disk.size }
    requires position { place.now.position < geometry.now.log }
    requires to_head { place.now.to_head ≤ geometry.now.log }
    requires piece { IsReadAhead ahead.old commits.old.disk.moments }
    requires on_disk { AreOnDisk commits.old }
    ensures fits { IfOk result (λ row. FitsFrom geometry.now place.now seq row) }
    ensures row { IfOk result (λ row. HoldsNow
        (λ now. HasRow geometry.now place.now seq now.bytes row) commits.old.disk.moments) }
    ensures piece { IsReadAhead ahead.new commits.new.disk.moments }
    ensures read { IfOk result (λ row.
        AreReadOnly (headers_of place.now.position row) true commits.old commits.new) }
    ensures paid { IfOk result (λ row.
        Pays geometry.now.log place.now (sectors_taken geometry.now.log place.now.position row)
        ahead.old ahead.new commits.old commits.new) }
    ensures bad { IfErr result (λ e.
        IsBadRow geometry.now place.now seq commits.old.disk.moments e) }
    ensures err { IfErr result (λ e.
        AreReadOnly 2 (opens_without_fault e) commits.old commits.new) }
{
    let head = read_head(commits, ahead, geometry, place, seq)?;
    if let Some(row) = row_at(seq, place.position, &head) {
        return Ok(row);
    }
    let after_pad = Place {
        position: 0,
        to_head: place.to_head - (geometry.log - place.position),
        is_last: place.is_last,
    };
    let head = read_head(commits, ahead, geometry, &after_pad, seq)?;
    match row_at(seq, 0, &head) {
        Some(row) => Ok(row),
        None => unreachable!(),
    }
}

// The row of the record with this seq whose header says this at a sector; none where it is a pad's.
fn row_at(seq: u64, at: u64, head: &Head) -> Option<Row>
    ensures some { IfSome result (λ row.
        (seq_of row ≡ seq) × (position_of row ≡ at) × (head_of_row row ≡ head.now)) }
    ensures none { IfNone result (IsPad head.now) }
{
    match head {
        Head::Write { lba, sectors } => Some(Row::Write {
            seq,
            at,
            lba: *lba,
            sectors: *sectors,
        }),
        Head::Zero { lba, sectors } => Some(Row::Zero {
            seq,
            at,
            lba: *lba,
            sectors: *sectors,
        }),
        Head::Pad { .. } => None,
    }
}

// Reads the header with this seq at a place. No piece goes past the head, nor past the log's end.
fn read_head<D: Disk>(
    commits: &mut Commits<D>,
    ahead: &mut ReadAhead,
    geometry: &Geometry,
    place: &Place,
    seq: u64,
) -> Result<Head, OpenError>
    requires limits { IsTrue (is_within_limits geometry.now) }
    requires inside { byte_of geometry.now.log ≤ commits.old.disk.size }
    requires position { place.now.position < geometry.now.log }
    requires to_head { place.now.to_head ≤ geometry.now.log }
    requires piece { IsReadAhead ahead.old commits.old.disk.moments }
    requires on_disk { AreOnDisk commits.old }
    ensures in_range { IfOk result (λ head.
        IsTrue (is_in_range geometry.now place.now.position head)) }
    ensures fits { IfOk result (λ head. IsTrue (fits geometry.now place.now head)) }
    ensures head { IfOk result (λ head. HoldsNow
        (λ now. IsHeader (log_sectors place.now.position 1 now.bytes) seq
        geometry.now place.now head) commits.old.disk.moments) }
    ensures piece { IsReadAhead ahead.new commits.new.disk.moments }
    ensures read { OnOk result (AreReadOnly 1 true commits.old commits.new) }
    ensures paid { OnOk result
        (Pays geometry.now.log place.now 0 ahead.old ahead.new commits.old commits.new) }
    ensures bad { IfErr result (λ e.
        IsBadHeader geometry.now place.now seq commits.old.disk.moments e) }
    ensures err { IfErr result (λ e.
        AreReadOnly 1 (opens_without_fault e) commits.old commits.new) }
{
    let mut header = [0; SECTOR_BYTES as usize];
    let end = geometry.log.min(place.position + place.to_head.max(1));
    ahead.read(commits, place.position, end, &mut header)?;
    match decode(&header, seq, geometry, place) {
        Ok(head) => Ok(head),
        Err(bad) => Err(OpenError::BadRecord {
            seq,
            reason: bad.reason,
        }),
    }
}
