ghost use Rattle.std.specs.Prelude.{◌≡◌, ◌+◌, ◌*◌, ◌-◌, ◌<◌, ◌≤◌, OnOk, OnErr, IfOk, IfErr, map};
ghost use Rattle.std.specs.Prelude.{drop, length, true};
ghost use Rattle.lsvd_device.specs.Device.{HoldsNow};
ghost use Rattle.log_room.specs.Room.{max_log};
ghost use Rattle.commit_slot.specs.OnDisk.{AreOnDisk};
ghost use Rattle.cache_log.specs.Rows.{byte_of, seq_of, position_of, entry_of};
ghost use Rattle.cache_log.specs.Log.{row_of, AreRowsOf};
ghost use Rattle.cache_log.specs.Reads.{AreReadOnly, reads_without_fault};
ghost use Rattle.cache_log.specs.Writing.{IsPadded, FailsToPad, IsWrittenAt, IsNotWrittenAt};
ghost use Rattle.cache_log.specs.Writing.{RowLiesInside, RowsLieInside};
ghost use Rattle.cache_log.specs.Pieces.{IsReadAhead};

use crate::error::LogReadError;
use crate::reading_ahead::ReadAhead;
use crate::row::Row;
use commit_slot::{Commits, LOG_START};
use log_record::encode_pad;
use log_room::LogRoom;
use lsvd_base::{Body, Entry, SECTOR_BYTES};
use lsvd_device::Disk;
use lsvd_fault::Failed;
use std::alloc::Global;
use std::collections::VecDeque;

// The byte of the device at which a sector of the log stands.
pub(crate) fn byte_of(sector: u64) -> u64
    requires { sector ≤ max_log }
    ensures { result ≡ byte_of sector }
{
    LOG_START + SECTOR_BYTES * sector
}

// Writes a piece at a sector of the log.
pub(crate) fn write_at<D: Disk>(
    commits: &mut Commits<D>,
    sector: u64,
    piece: &[u8],
) -> Result<(), Failed>
    requires sector { sector ≤ max_log }
    requires inside { byte_of sector + length piece.now ≤ commits.old.disk.size }
    ensures ok { OnOk result (IsWrittenAt (byte_of sector) piece.now commits.old commits.new) }
    ensures err { OnErr result (IsNotWrittenAt (byte_of sector) piece.now commits.old commits.new) }
{
    commits.write(byte_of(sector), piece)
}

// Writes the header of the pad that the next record, of `sectors` sectors, needs before it; the
// sectors after the header keep what they have. Nothing is written where it needs none.
pub(crate) fn write_pad_before<D: Disk>(
    commits: &mut Commits<D>,
    room: &LogRoom,
    sectors: u64,
    seq: u64,
) -> Result<(), Failed>
    requires inside { byte_of room.now.log ≤ commits.old.disk.size }
    ensures ok { OnOk result (IsPadded room.now sectors seq commits.old commits.new) }
    ensures err { OnErr result (FailsToPad room.now sectors seq commits.old commits.new) }
{
    let (head, pad) = (room.head(), room.pad_before(sectors));
    if pad == 0 {
        return Ok(());
    }
    let mut header = [0; SECTOR_BYTES as usize];
    encode_pad(pad - 1, seq, &mut header);
    write_at(commits, head, &header)
}

// Reads the entries whose records stand at these rows' sectors, but for the first ones, in pieces of
// up to a mebibyte.
pub(crate) fn read_entries<D: Disk>(
    alloc: Global,
    commits: &mut Commits<D>,
    rows: &VecDeque<Row>,
    skipped: usize,
    room: &LogRoom,
) -> Result<Vec<Entry>, LogReadError>
    requires inside { RowsLieInside rows.now.items room.now.log }
    requires fits { byte_of room.now.log ≤ commits.old.disk.size }
    requires on_disk { AreOnDisk commits.old }
    ensures entries { IfOk result (λ list. HoldsNow
        (λ now. list.items ≡ map (entry_of now.bytes) (drop skipped rows.now.items))
        commits.old.disk.moments) }
    ensures rows { IfOk result (λ list. AreRowsOf (drop skipped rows.now.items) list.items) }
    ensures read { OnOk result
        (AreReadOnly (length rows.now.items - skipped) true commits.old commits.new) }
    ensures err { IfErr result (λ e.
        AreReadOnly (length rows.now.items - skipped) (reads_without_fault e)
        commits.old commits.new) }
{
    let mut ahead = ReadAhead::new(alloc, room.used())?;
    let mut entries = Vec::new(alloc);
    for index in skipped..rows.len() {
        let entry = read_entry(alloc, commits, &mut ahead, rows[index], room.sectors())?;
        entries.push(entry)?;
    }
    Ok(entries)
}

// Reads the entry whose record stands at a row's sectors, in a log of `log` sectors.
fn read_entry<D: Disk>(
    alloc: Global,
    commits: &mut Commits<D>,
    ahead: &mut ReadAhead,
    row: Row,
    log: u64,
) -> Result<Entry, LogReadError>
    requires limit { log ≤ max_log }
    requires inside { RowLiesInside row log }
    requires fits { byte_of log ≤ commits.old.disk.size }
    requires piece { IsReadAhead ahead.old commits.old.disk.moments }
    requires on_disk { AreOnDisk commits.old }
    ensures entry { IfOk result (λ entry.
        HoldsNow (λ now. entry ≡ entry_of now.bytes row) commits.old.disk.moments) }
    ensures row { IfOk result (λ entry. row ≡ row_of (seq_of row) (position_of row) entry) }
    ensures piece { IsReadAhead ahead.new commits.new.disk.moments }
    ensures read { OnOk result (AreReadOnly 1 true commits.old commits.new) }
    ensures err { IfErr result (λ e.
        AreReadOnly 1 (reads_without_fault e) commits.old commits.new) }
{
    match row {
        Row::Write {
            at,
            lba,
            sectors,
            ..
        } => {
            let mut bytes = vec![in alloc; 0; (SECTOR_BYTES * sectors) as usize]?;
            ahead.read(commits, at + 1, log, bytes.as_mut_slice())?;
            let body = Body::from_bytes(bytes);
            Ok(Entry::Write { lba, body })
        }
        Row::Zero { lba, sectors, .. } => Ok(Entry::Zero { lba, sectors }),
    }
}
