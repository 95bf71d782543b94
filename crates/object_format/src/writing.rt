ghost use Rattle.std.specs.Prelude.{◌≡◌, ◌*◌, ◌+◌, ◌≤◌, ◌++◌, IfOk, length};
ghost use Rattle.object_format.specs.Layout.{front_sectors, length_of};
ghost use Rattle.object_format.specs.Header.{header_bytes};
ghost use Rattle.object_format.specs.Rows.{rows_kind, count_of};
ghost use Rattle.object_format.specs.Writing.{payload_of, object_header_of, MayBeWritten, front_bytes};

use crate::expected::Expected;
use crate::header::Header;
use crate::rows::Rows;
use crate::{
    END_SEQ_AT, FIRST_SEQ_AT, HEADER_BYTES, KIND_AT, MAGIC, NUMBER_AT, PAYLOAD_AT, ROWS_AT, UUID_AT,
};
use lsvd_base::{ObjectBytes, SECTOR_BYTES};
use lsvd_bytes::{write_16_bytes, write_u32, write_u64};
use std::alloc::{AllocError, Global};
use std::marker::Model;

/// An object whose header and rows are written, and whose payload is appended piece by piece. Contracts see
/// the bytes so far, and how many the object will have.
#[derive(Drop)]
pub struct ObjectWriter {
    // The bytes so far, with room for all of them.
    bytes: Vec<u8>,
    size: usize,
}

impl Model for ObjectWriter {
    ghost use Rattle.std.specs.Prelude.{◌≤◌, vec_capacity};
    ghost use Rattle.object_format.specs.Writing.{Written};

    ghost Value = { Written };

    ghost view = { λ w. record { bytes = w.bytes.items; size = w.size } };

    ghost invariant = { λ w. w.size ≤ vec_capacity w.bytes };
}

impl ObjectWriter {
    /// Begins the expected object, with the entries from the first seq up to the end seq and with these rows,
    /// which may stand so (a condition). It has memory for the whole object. The one error is that memory ran
    /// out.
    pub fn new(
        alloc: Global,
        expected: &Expected,
        first_seq: u64,
        end_seq: u64,
        rows: &Rows,
    ) -> Result<ObjectWriter, AllocError>
        requires { MayBeWritten expected.now (object_header_of expected.now first_seq end_seq rows.now)
            rows.now }
        ensures bytes { IfOk result (λ writer. writer.bytes
            ≡ front_bytes (object_header_of expected.now first_seq end_seq rows.now) rows.now) }
        ensures missing { IfOk result (λ writer. length writer.bytes + 512 * payload_of rows.now
            ≡ writer.size) }
        ensures size { IfOk result (λ writer. writer.size
            ≡ length_of (object_header_of expected.now first_seq end_seq rows.now)) }
    {
        let header = rows.header(expected, first_seq, end_seq);
        let front = (header.front_sectors() * SECTOR_BYTES) as usize;
        let size = front + (header.payload * SECTOR_BYTES) as usize;
        let mut bytes = Vec::with_capacity(alloc, size)?;
        bytes.resize(front, 0)?;
        write_front(&header, rows, bytes.as_mut_slice());
        Ok(ObjectWriter { bytes, size })
    }

    /// Appends bytes of the payload, of which there are no more than are missing (a condition).
    pub fn append(&mut self, piece: &[u8])
        requires { length self.old.bytes + length piece.now ≤ self.old.size }
        ensures { self.new ≡ record { bytes = self.old.bytes ++ piece.now; size = self.old.size } }
    {
        self.bytes.extend_from_slice(piece).unwrap();
    }

    /// The object, of which no bytes are missing (a condition). The one error is that memory ran out.
    pub fn finish(self) -> Result<ObjectBytes, AllocError>
        requires { length self.bytes ≡ self.size }
        ensures { IfOk result (λ object. object ≡ self.bytes) }
    {
        ObjectBytes::from_bytes(self.bytes)
    }
}

// Writes the object up to its payload into as many bytes.
fn write_front(header: &Header, rows: &Rows, front: &mut [u8])
    requires size { length front.old ≡ 512 * front_sectors header.now }
    requires kind { rows_kind rows.now ≡ header.now.kind }
    requires count { count_of rows.now ≡ header.now.rows }
    ensures { front.new ≡ front_bytes header.now rows.now }
{
    let rows_end = header.rows_end() as usize;
    write_header(header, &mut front[..HEADER_BYTES]);
    rows.write(&mut front[HEADER_BYTES..rows_end]);
    front[rows_end..].fill(0);
}

// Writes the header into 64 bytes.
fn write_header(header: &Header, head: &mut [u8])
    requires { length head.old ≡ 64 }
    ensures { head.new ≡ header_bytes header.now }
{
    head[..KIND_AT].copy_from_slice(&MAGIC);
    write_u32(head, KIND_AT, header.kind.number());
    write_16_bytes(head, UUID_AT, &header.uuid);
    write_u64(head, NUMBER_AT, header.number);
    write_u64(head, FIRST_SEQ_AT, header.first_seq);
    write_u64(head, END_SEQ_AT, header.end_seq);
    write_u32(head, ROWS_AT, header.rows);
    write_u64(head, PAYLOAD_AT, header.payload);
}
