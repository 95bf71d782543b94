ghost use Rattle.std.specs.Prelude.{◌≡◌, true, false, None, Some, IsTrue, IsSome, IfSome, option_map, ◌↔◌};
ghost use Rattle.std.specs.Prelude.{ℕ, ◌+◌, ◌≤◌, length, [], ◌∷◌};
ghost use Rattle.extent_map.specs.Extents.{place_at};
ghost use Rattle.volume_maps.specs.Places.{object_on};
ghost use Rattle.object_uploads.specs.Queue.{spare_of, just_sealed, with_spare, with_receipt, row_count};
ghost use Rattle.object_uploads.specs.Queue.{settled_by_rows, newest_of};
ghost use Rattle.object_uploads.specs.Invariant.{MaySettle, CoverSealed};

use crate::rows::SealedRows;
use extent_map::ExtentMap;
use lsvd_base::ObjectBytes;
use lsvd_objstore::Receipt;
use reverse_map::SectorRange;
use std::marker::Model;
use volume_maps::ObjectPlace;

// An object past the frontier.
#[derive(Drop)]
pub(crate) struct Sealed<R: Receipt> {
    // With these a job's bytes are compared.
    object: ObjectBytes,
    // The same bytes for the next put; none while one is under way.
    spare: Option<ObjectBytes>,
    rows: SealedRows,
    // They have all sectors that its rows put.
    ranges: Vec<SectorRange>,
    end: u64,
    // What the store gave for it, once it is acknowledged.
    receipt: Option<R>,
}

impl<R: Receipt> Model for Sealed<R> {
    ghost use Rattle.std.specs.Prelude.{◌≡◌, IfSome, option_map};
    ghost use Rattle.std.specs.Option.{is_some};
    ghost use Rattle.object_uploads.specs.State.{SealedState};
    ghost use Rattle.object_uploads.specs.Invariant.{CoverSealed};

    ghost Value = { SealedState };

    ghost view = { λ s. record {
      bytes = s.object;
      rows = s.rows;
      end = s.end;
      has_spare = is_some s.spare;
      receipt = option_map R.state s.receipt;
    } };

    ghost invariant = { λ s. IfSome s.spare (λ bytes. bytes ≡ s.object)
        × CoverSealed s.ranges.items s.rows };
}

impl<R: Receipt> Sealed<R> {
    // The object with these rows and this end, whose bytes are given twice. The ranges have all sectors that
    // its rows put.
    pub(crate) fn new(
        object: ObjectBytes,
        spare: ObjectBytes,
        rows: SealedRows,
        ranges: Vec<SectorRange>,
        end: u64,
    ) -> Sealed<R>
        requires spare { spare ≡ object }
        requires covered { CoverSealed ranges.items rows }
        ensures { result ≡ just_sealed object rows end }
    {
        Sealed {
            object,
            spare: Some(spare),
            rows,
            ranges,
            end,
            receipt: None,
        }
    }

    // Whether these are its bytes.
    pub(crate) fn has_bytes(&self, bytes: &ObjectBytes) -> bool
        ensures { IsTrue result ↔ (bytes.now ≡ self.now.bytes) }
    {
        self.object == *bytes
    }

    // How many bytes it has.
    pub(crate) fn size(&self) -> u64
        ensures { result ≡ length self.now.bytes }
    {
        self.object.len()
    }

    // How many entries of the history are in it and in the objects before it.
    pub(crate) fn end(&self) -> u64
        ensures { result ≡ self.now.end }
    {
        self.end
    }

    // Settles its rows in a map, as those of the object of a number. There is room for the changes, and they
    // fit.
    pub(crate) fn settle_in(&self, map: &mut ExtentMap<ObjectPlace>, number: u64)
        requires room { row_count self.now ≤ map.old.spare }
        requires fit { MaySettle self.now.rows }
        ensures places { (k : ℕ) → place_at object_on map.new.rows k ≡ settled_by_rows number self.now.rows
            (place_at object_on map.old.rows k) k }
        ensures spare { map.old.spare ≤ map.new.spare + row_count self.now }
    {
        self.rows.settle_in(map, number);
    }

    // Its number, where it is a checkpoint, and else that of the newest one before it.
    pub(crate) fn newest_checkpoint(&self, before: u64, number: u64) -> u64
        ensures { result ≡ newest_of before number (self.now ∷ []) }
    {
        if self.rows.is_checkpoint() {
            number
        } else {
            before
        }
    }

    // Whether it is acknowledged.
    pub(crate) fn is_acknowledged(&self) -> bool
        ensures { IsTrue result ↔ IsSome self.now.receipt }
    {
        self.receipt.is_some()
    }

    // Takes its second bytes for a put, where they are there.
    pub(crate) fn take_spare(&mut self) -> Option<ObjectBytes>
        ensures spare { result ≡ spare_of self.old }
        ensures taken { self.new ≡ with_spare false self.old }
    {
        self.spare.take()
    }

    // Gives its second bytes back.
    pub(crate) fn give_spare(&mut self, bytes: ObjectBytes)
        requires { bytes ≡ self.old.bytes }
        ensures { self.new ≡ with_spare true self.old }
    {
        self.spare = Some(bytes);
    }

    // The store gave this for it.
    pub(crate) fn acknowledge(&mut self, receipt: R)
        ensures { self.new ≡ with_receipt (R.state receipt) self.old }
    {
        self.receipt = Some(receipt);
    }

    // Its parts, once it is acknowledged: its rows with their ranges, its end, and what the store gave.
    pub(crate) fn into_parts(self) -> (SealedRows, Vec<SectorRange>, u64, Option<R>)
        ensures rows { result.0 ≡ self.rows }
        ensures covered { CoverSealed result.1.items self.rows }
        ensures end { result.2 ≡ self.end }
        ensures receipt { option_map R.state result.3 ≡ self.receipt }
    {
        (self.rows, self.ranges, self.end, self.receipt)
    }
}
