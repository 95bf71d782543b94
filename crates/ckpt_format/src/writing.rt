ghost use Rattle.std.specs.Prelude.{◌≡◌, ◌+◌, ◌<◌, ◌≤◌, ◌++◌, ◌∷◌, [], IsTrue, IfOk, length, vec_capacity};
ghost use Rattle.object_format.specs.Header.{header_bytes, begins_at};
ghost use Rattle.object_format.specs.declared.kind.Kind.TheVariants.{Checkpoint};
ghost use Rattle.ckpt_format.specs.Rows.{AreCheckpointRows};
ghost use Rattle.ckpt_format.specs.Checkpoint.{IsCheckpoint};

use crate::place::StoredPlace;
use crate::row::{append, append_row};
use extent_map::Extent;
use lsvd_base::SECTOR_BYTES;
use object_format::{Expected, Header, Kind};
use std::alloc::{AllocError, Global};
use std::marker::Model;

/// A checkpoint whose header is written, and whose rows are pushed one by one, into one buffer of the final
/// size. Contracts see what is expected of it, its end, how many rows it will have, and the rows so far.
#[derive(Drop)]
pub struct CheckpointWriter {
    // The bytes so far, with room for all of them.
    bytes: Vec<u8>,
    expected: Expected,
    end_seq: u64,
    // How many rows it will have.
    count: u32,
    // How many were pushed.
    pushed: u32,
}

impl Model for CheckpointWriter {
    ghost use Rattle.std.specs.Prelude.{vec_capacity};
    ghost use Rattle.ckpt_format.specs.Writing.{CheckpointSoFar};
    ghost use Rattle.ckpt_format.specs.Fields.{writing_at, IsWriter};

    ghost Value = { CheckpointSoFar };

    ghost view = { λ w. writing_at w.bytes.items w.expected w.end_seq w.count w.pushed };

    ghost invariant = { λ w. IsWriter w.bytes.items (vec_capacity w.bytes) w.expected w.end_seq w.count
        w.pushed };
}

// The bytes that an object begins with.
const MAGIC: [u8; 8] = *b"LSVDOBJ1";

// The number of the kind of a checkpoint.
const CHECKPOINT: u32 = 3;

// What the last sector of the rows is filled up with.
const ZEROS: [u8; 512] = [0; 512];

impl CheckpointWriter {
    /// Begins the expected checkpoint with this end, which is the end before it where that is known (a
    /// condition), and with this many rows. It has memory for the whole object. The one error is that memory
    /// ran out.
    pub fn new(
        alloc: Global,
        expected: &Expected,
        end_seq: u64,
        count: u32,
    ) -> Result<CheckpointWriter, AllocError>
        requires { IsTrue (begins_at end_seq expected.now.end_before) }
        ensures { IfOk result (λ writer. writer
            ≡ record { expected = expected.now; end_seq = end_seq; count = count; rows = [] }) }
    {
        let header = Header {
            kind: Kind::Checkpoint,
            uuid: expected.uuid,
            number: expected.number,
            first_seq: end_seq,
            end_seq,
            rows: count,
            payload: 0,
        };
        let size = header.front_sectors() * SECTOR_BYTES;
        let mut bytes = Vec::with_capacity(alloc, size as usize)?;
        append_header(&mut bytes, &header);
        Ok(CheckpointWriter {
            bytes,
            expected: *expected,
            end_seq,
            count,
            pushed: 0,
        })
    }

    /// Appends the next row. Not all rows were pushed yet (a condition).
    pub fn push(&mut self, row: &Extent<StoredPlace>)
        requires { length self.old.rows < self.old.count }
        ensures { self.new ≡ record self.old { rows = self.old.rows ++ row.now ∷ [] } }
    {
        append_row(&mut self.bytes, row);
        self.pushed += 1;
    }

    /// The bytes of the object. All rows were pushed, and they keep the one spelling of a checkpoint's rows:
    /// the shortest list in order, of rows that may stand in it (conditions).
    pub fn finish(self) -> Vec<u8>
        requires all { length self.rows ≡ self.count }
        requires spelling { AreCheckpointRows self.expected self.rows }
        ensures { IsCheckpoint result.items self.expected self.end_seq self.rows }
    {
        let mut bytes = self.bytes;
        let missing = (ZEROS.len() - bytes.len() % ZEROS.len()) % ZEROS.len();
        append(&mut bytes, &ZEROS[..missing]);
        bytes
    }
}

// Appends the header of a checkpoint (a condition), for which there is room (a condition).
fn append_header(bytes: &mut Vec<u8>, header: &Header)
    requires kind { header.now.kind ≡ Checkpoint }
    requires room { length bytes.old.items + 64 ≤ vec_capacity bytes.old }
    ensures items { bytes.new.items ≡ bytes.old.items ++ header_bytes header.now }
    ensures room { vec_capacity bytes.old ≤ vec_capacity bytes.new }
{
    append(bytes, MAGIC.as_slice());
    append(bytes, CHECKPOINT.to_be_bytes().as_slice());
    append(bytes, header.uuid.as_slice());
    append(bytes, header.number.to_be_bytes().as_slice());
    append(bytes, header.first_seq.to_be_bytes().as_slice());
    append(bytes, header.end_seq.to_be_bytes().as_slice());
    append(bytes, header.rows.to_be_bytes().as_slice());
    append(bytes, header.payload.to_be_bytes().as_slice());
}
