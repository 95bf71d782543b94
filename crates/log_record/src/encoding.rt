ghost use Rattle.std.specs.Prelude.{◌≡◌, ◌*◌, length};
ghost use Rattle.log_room.specs.Room.{record_sectors, sector_bytes};
ghost use Rattle.log_record.specs.Grammar.{IsHeaderOf, IsRecordOf};
ghost use Rattle.log_record.specs.declared.head.Head.TheVariants.{Pad};

use crate::head::Head;
use crate::{FILLER_AT, KIND_AT, LBA_AT, MAGIC, SECTORS_AT, SEQ_AT};
use lsvd_base::{Entry, SECTOR_BYTES};
use lsvd_bytes::{write_u32, write_u64};

/// Puts the record of the entry with this seq into bytes, of which there are 512 for each of its
/// sectors (a condition).
pub fn encode_into(entry: &Entry, seq: u64, bytes: &mut [u8])
    requires { length bytes.old ≡ sector_bytes * record_sectors entry.now }
    ensures { IsRecordOf entry.now seq bytes.new }
{
    write_header(&Head::of(entry), seq, &mut bytes[..SECTOR_BYTES as usize]);
    if let Entry::Write { body, .. } = entry {
        bytes[SECTOR_BYTES as usize..].copy_from_slice(body.as_bytes());
    }
}

/// Puts the header of a pad into a sector of 512 bytes (a condition). The pad has `sectors` sectors
/// after its header, and its seq is that of the next record.
pub fn encode_pad(sectors: u64, seq: u64, sector: &mut [u8])
    requires { length sector.old ≡ sector_bytes }
    ensures { IsHeaderOf (Pad sectors) seq sector.new }
{
    write_header(&Head::Pad { sectors }, seq, sector);
}

// Puts the header into a sector.
fn write_header(head: &Head, seq: u64, sector: &mut [u8])
    requires { length sector.old ≡ sector_bytes }
    ensures { IsHeaderOf head.now seq sector.new }
{
    sector[..KIND_AT].copy_from_slice(&MAGIC);
    write_u32(sector, KIND_AT, head.kind());
    write_u64(sector, SEQ_AT, seq);
    write_u64(sector, LBA_AT, head.lba());
    write_u64(sector, SECTORS_AT, head.sectors());
    sector[FILLER_AT..].fill(0);
}
