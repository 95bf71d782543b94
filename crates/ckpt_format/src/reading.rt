ghost use Rattle.std.specs.Prelude.{◌≡◌, ℕ, ◌↔◌, IsTrue, IfOk, IfErr, OnErr, List, length};
ghost use Rattle.extent_map.specs.declared.extent.Extent.{Extent};
ghost use Rattle.object_format.specs.declared.reason.BadObject.TheVariants as reasons;
ghost use Rattle.object_format.specs.Layout.{length_of};
ghost use Rattle.ckpt_format.specs.declared.place.StoredPlace.{StoredPlace};
ghost use Rattle.ckpt_format.specs.Checkpoint.{IsCheckpoint};
ghost use Rattle.ckpt_format.specs.Reading.{IsCheckpointRefusedAs, IsBegun, Gives};
ghost use Rattle.ckpt_format.specs.Fields.{HasCheckpointForm};

use crate::place::StoredPlace;
use crate::row::{may_come_after, read_row};
use crate::{HEADER_BYTES, ROW_BYTES};
use extent_map::Extent;
use lsvd_bytes::is_zeros;
use object_format::{BadObject, Expected, Header, Kind, read_header};
use std::marker::Model;

/// The rows of a checkpoint, given one by one in the order of their sectors. Each is judged as it is given,
/// and the checkpoint is known to be good only at the end of its rows: a caller that is told of a bad row
/// throws away what it made of those before it.
///
/// Contracts see the bytes of the object with what is expected of it, the rows that were given, and the rest.
#[derive(Drop)]
pub struct CheckpointRows<'a> {
    // The bytes of the object.
    bytes: &'a [u8],
    expected: Expected,
    end_seq: u64,
    // How many rows it has.
    count: u32,
    // How many of them were given, and the last of these.
    given: u32,
    before: Option<Extent<StoredPlace>>,
}

impl<'a> Model for CheckpointRows<'a> {
    ghost use Rattle.ckpt_format.specs.Reading.{CheckpointReading};
    ghost use Rattle.ckpt_format.specs.Fields.{reading_at, IsCursor};

    ghost Value = { CheckpointReading };

    ghost view = { λ c. reading_at c.bytes.now c.expected c.end_seq c.count c.given };

    ghost invariant = { λ c. IsCursor c.bytes.now c.expected c.end_seq c.count c.given c.before };
}

/// Begins to read a checkpoint under the expected number, of all bytes of an object. The error names the
/// first test that they fail; it comes where they do not begin with the header of an object that is as long
/// as it says, and, as `Rows`, where the object is of another kind, has a payload, or has no zeros after its
/// rows. Then they are no checkpoint. The rows themselves are judged as they are given.
pub fn read_checkpoint<'a>(
    bytes: &'a [u8],
    expected: &Expected,
) -> Result<CheckpointRows<'a>, BadObject>
    ensures begun { IfOk result (IsBegun bytes.now expected.now) }
    ensures refused { IfErr result (IsCheckpointRefusedAs bytes.now expected.now) }
    ensures none { OnErr result ((end_seq : ℕ) (rows : List (Extent StoredPlace))
        → IsCheckpoint bytes.now expected.now end_seq rows → ⊥) }
{
    let header = read_header(bytes, bytes.len() as u64, expected)?;
    if !has_checkpoint_form(bytes, &header) {
        return Err(BadObject::Rows);
    }
    Ok(CheckpointRows {
        bytes,
        expected: *expected,
        end_seq: header.end_seq,
        count: header.rows,
        given: 0,
        before: None,
    })
}

impl<'a> CheckpointRows<'a> {
    /// The checkpoint's end: how many entries of the history are in it and in the objects before it.
    pub fn end_seq(&self) -> u64
        ensures { result ≡ self.now.end_seq }
    {
        self.end_seq
    }

    /// How many rows are not given yet.
    pub fn left(&self) -> u32
        ensures { result ≡ length self.now.rest }
    {
        self.count - self.given
    }

    /// The next row. None is at the end: then the bytes are a checkpoint, with just the rows that were given.
    /// The error is `Rows`, and comes exactly where no rows make the bytes a checkpoint since the next one
    /// does not keep the spelling. Nothing changes by it, so it comes again.
    pub fn next_row(&mut self) -> Result<Option<Extent<StoredPlace>>, BadObject>
        ensures gives { IfOk result (Gives self.old self.new) }
        ensures rows { IfErr result (λ reason. reason ≡ reasons.Rows) }
        ensures refused { IfErr result (IsCheckpointRefusedAs self.old.object self.old.expected) }
        ensures unchanged { OnErr result (self.new ≡ self.old) }
    {
        if self.given == self.count {
            return Ok(None);
        }
        let row = read_row(&self.bytes[HEADER_BYTES + ROW_BYTES * self.given as usize..]);
        if !may_come_after(&row, self.before, &self.expected) {
            return Err(BadObject::Rows);
        }
        self.given += 1;
        self.before = Some(row);
        Ok(Some(row))
    }
}

// Whether an object with this header, which is as long as that says (a condition), is a checkpoint but for
// its rows.
fn has_checkpoint_form(bytes: &[u8], header: &Header) -> bool
    requires { length bytes.now ≡ length_of header.now }
    ensures { IsTrue result ↔ HasCheckpointForm bytes.now header.now }
{
    if header.kind != Kind::Checkpoint || header.payload != 0 {
        return false;
    }
    let rows_end = HEADER_BYTES + ROW_BYTES * header.rows as usize;
    is_zeros(&bytes[rows_end..])
}
