ghost use Rattle.std.specs.Prelude.{◌≡◌, ◌+◌, ◌-◌, ◌*◌, ◌/◌, ◌≤◌, [], ◌∷◌, IfOk, OnOk, is_ok, length};
ghost use Rattle.std.specs.List.{All};
ghost use Rattle.read_plan.specs.Rows.{IsReadable, IsRowRead, AreRowsRead};
ghost use Rattle.read_plan.specs.Look.{ReadsRows};

use cache_log::CacheLog;
use extent_map::Extent;
use lsvd_base::SECTOR_BYTES;
use lsvd_device::Disk;
use lsvd_fault::Failed;
use volume_maps::{LogPlace, VolumePlace};

/// The bytes of a range from `lba` on with what the log has of it, by one read of the device for each of
/// these rows of data in it.
pub(crate) fn read_rows<D: Disk>(
    log: &mut CacheLog<D>,
    rows: &[Extent<VolumePlace>],
    lba: u64,
    mut bytes: Vec<u8>,
) -> Result<Vec<u8>, Failed>
    requires { All (IsReadable lba (length bytes.items / 512) log.old) rows.now }
    ensures read { IfOk result (λ read. AreRowsRead log.old lba rows.now bytes.items read.items) }
    ensures reads { ReadsRows rows.now (is_ok result) log.old log.new }
{
    read_into(log, rows, lba, bytes.as_mut_slice())?;
    Ok(bytes)
}

// Reads the rows into the bytes of a range from `lba` on.
fn read_into<D: Disk>(
    log: &mut CacheLog<D>,
    rows: &[Extent<VolumePlace>],
    lba: u64,
    bytes: &mut [u8],
) -> Result<(), Failed>
    requires { All (IsReadable lba (length bytes.old / 512) log.old) rows.now }
    ensures read { OnOk result (AreRowsRead log.old lba rows.now bytes.old bytes.new) }
    ensures reads { ReadsRows rows.now (is_ok result) log.old log.new }
{
    for row in rows {
        read_row(log, row, lba, bytes)?;
    }
    Ok(())
}

// Reads the data of one row, where the log has them.
fn read_row<D: Disk>(
    log: &mut CacheLog<D>,
    row: &Extent<VolumePlace>,
    lba: u64,
    bytes: &mut [u8],
) -> Result<(), Failed>
    requires { IsReadable lba (length bytes.old / 512) log.old row.now }
    ensures read { OnOk result (IsRowRead log.old lba row.now bytes.old bytes.new) }
    ensures reads { ReadsRows (row.now ∷ []) (is_ok result) log.old log.new }
{
    let VolumePlace::Log(LogPlace::Data { sector, .. }) = row.place else {
        return Ok(());
    };
    let at = (SECTOR_BYTES * (row.lba - lba)) as usize;
    let count = (SECTOR_BYTES * row.sectors) as usize;
    log.read(sector, &mut bytes[at..at + count])
}
