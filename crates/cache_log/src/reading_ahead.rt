ghost use Rattle.std.specs.Prelude.{◌≡◌, ◌+◌, ◌*◌, ◌≤◌, min, IfOk, OnOk, is_ok, length, take, drop};
ghost use Rattle.lsvd_bytes.specs.Places.{bytes_at};
ghost use Rattle.lsvd_device.specs.Device.{HoldsNow};
ghost use Rattle.log_room.specs.Room.{max_log, sector_bytes};
ghost use Rattle.commit_slot.specs.OnDisk.{AreOnDisk};
ghost use Rattle.cache_log.specs.Rows.{byte_of};
ghost use Rattle.cache_log.specs.Reads.{AreReadOnly, piece_sectors};
ghost use Rattle.cache_log.specs.Pieces.{IsReadAhead, HasPiece, GoesAhead};

use crate::transfer::byte_of;
use commit_slot::Commits;
use lsvd_base::SECTOR_BYTES;
use lsvd_device::Disk;
use lsvd_fault::Failed;
use std::alloc::{AllocError, Global};

// The most sectors of a piece, which has a mebibyte then. Records are mostly far shorter, so that
// few calls read a log whose every header and every entry is asked for by itself.
const PIECE_SECTORS: u64 = 2_048;

// A piece of the log that was read of its device, for the reads that come next. Nothing is written
// to the device while it is in use.
#[derive(Drop)]
pub(crate) struct ReadAhead {
    // Room for the longest piece, with the bytes of the last one at its beginning.
    buffer: Vec<u8>,
    // The byte of the device at which the piece begins, and how many bytes it has.
    at: u64,
    len: usize,
}

impl ReadAhead {
    // No piece so far, and memory for one of these sectors, or of a mebibyte where they are more.
    pub(crate) fn new(alloc: Global, sectors: u64) -> Result<ReadAhead, AllocError>
        ensures none { IfOk result (λ ahead. ahead.len ≡ 0) }
        ensures room { IfOk result (λ ahead.
            length ahead.buffer.items ≡ sector_bytes * min sectors piece_sectors) }
    {
        let room = SECTOR_BYTES * sectors.min(PIECE_SECTORS);
        Ok(ReadAhead {
            buffer: vec![in alloc; 0; room as usize]?,
            at: 0,
            len: 0,
        })
    }

    // Reads the log from one of its sectors on into the whole of `buf`, which ends before the sector
    // `end`: out of the piece, or by one read of the device. That is of a new piece, up to `end` at
    // most, or into `buf` itself where a piece would be too short.
    pub(crate) fn read<D: Disk>(
        &mut self,
        commits: &mut Commits<D>,
        sector: u64,
        end: u64,
        buf: &mut [u8],
    ) -> Result<(), Failed>
        requires limit { end ≤ max_log }
        requires inside { byte_of sector + length buf.old ≤ byte_of end }
        requires fits { byte_of end ≤ commits.old.disk.size }
        requires piece { IsReadAhead self.old commits.old.disk.moments }
        requires on_disk { AreOnDisk commits.old }
        ensures ok { OnOk result (
            HoldsNow (λ now. buf.new ≡ take (length buf.old) (drop (byte_of sector) now.bytes))
            commits.old.disk.moments) }
        ensures ahead { length buf.old ≤ length self.old.buffer.items → OnOk result
            (GoesAhead (byte_of sector) (length buf.old) (byte_of end) self.old self.new) }
        ensures spared { length buf.old ≤ length self.old.buffer.items
            → HasPiece self.old (byte_of sector) (length buf.old) → commits.new ≡ commits.old }
        ensures piece { IsReadAhead self.new commits.new.disk.moments }
        ensures only { AreReadOnly 1 (is_ok result) commits.old commits.new }
    {
        let at = byte_of(sector);
        if self.buffer.len() < buf.len() {
            return commits.read(at, buf);
        }
        self.hold(commits, at, byte_of(end), buf.len())?;
        let place = (at - self.at) as usize;
        buf.copy_from_slice(&self.buffer[place..place + buf.len()]);
        Ok(())
    }

    // Sees that the piece has `len` bytes of the device from `at` on: where it has not, a new one is
    // read, which begins with them and ends before `end`.
    fn hold<D: Disk>(
        &mut self,
        commits: &mut Commits<D>,
        at: u64,
        end: u64,
        len: usize,
    ) -> Result<(), Failed>
        requires room { len ≤ length self.old.buffer.items }
        requires inside { at + len ≤ end }
        requires fits { end ≤ commits.old.disk.size }
        requires piece { IsReadAhead self.old commits.old.disk.moments }
        requires on_disk { AreOnDisk commits.old }
        ensures held { OnOk result (HasPiece self.new at len) }
        ensures ahead { OnOk result (GoesAhead at len end self.old self.new) }
        ensures spared { HasPiece self.old at len → commits.new ≡ commits.old }
        ensures piece { IsReadAhead self.new commits.new.disk.moments }
        ensures only { AreReadOnly 1 (is_ok result) commits.old commits.new }
    {
        if self.at <= at && (at - self.at) + len as u64 <= self.len as u64 {
            return Ok(());
        }
        let most = (end - at).min(self.buffer.len() as u64) as usize;
        self.len = 0;
        read_front(commits, at, most, self.buffer.as_mut_slice())?;
        self.at = at;
        self.len = most;
        Ok(())
    }
}

// Reads so many bytes of the device from `at` on into the first ones of `room`.
fn read_front<D: Disk>(
    commits: &mut Commits<D>,
    at: u64,
    count: usize,
    room: &mut [u8],
) -> Result<(), Failed>
    requires room { count ≤ length room.old }
    requires inside { at + count ≤ commits.old.disk.size }
    ensures ok { OnOk result (
        HoldsNow (λ now. take count room.new ≡ bytes_at at count now.bytes)
        commits.old.disk.moments) }
    ensures only { AreReadOnly 1 (is_ok result) commits.old commits.new }
{
    commits.read(at, &mut room[..count])
}
