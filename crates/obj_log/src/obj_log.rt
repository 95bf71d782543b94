ghost use Rattle.std.specs.Prelude.{◌≡◌, ◌+◌, ◌-◌, ◌<◌, ◌≤◌, ◌^◌, ◌↔◌, [], length, None, Err};
ghost use Rattle.std.specs.Prelude.{IsTrue, IsOk, IfOk, OnOk, OnErr, false};
ghost use Rattle.std.specs.Borrow.{sem};
ghost use Rattle.std.specs.List.{sum_by};
ghost use Rattle.lsvd_base.specs.Limits.{is_within_limits};
ghost use Rattle.lsvd_base.specs.Range.{is_in_range};
ghost use Rattle.lsvd_base.specs.Laws.{sector_count};
ghost use Rattle.batcher.specs.Batch.{data_sectors};
ghost use Rattle.gc_copier.specs.Plan.{sectors_of};
ghost use Rattle.lsvd_names.specs.Names.{numbered_name};
ghost use Rattle.object_format.specs.Rows.{copy_rows_may_stand};
ghost use Rattle.object_uploads.specs.Queue.{FitSealed, is_checkpoint};
ghost use Rattle.object_uploads.specs.Order.{IsUploads};
ghost use Rattle.obj_log.specs.declared.error.SealError.TheVariants as errors;
ghost use Rattle.obj_log.specs.Changes.{HasRoomToAdd, IsSame, IsAdded, HasSealedObject, HasAdoptedObject};
ghost use Rattle.obj_log.specs.Changes.{HasSealedCopy, next_of};

use crate::copy::{into_copies, write_object};
use crate::error::SealError;
use batcher::Batch;
use gc_copier::Copied;
use lsvd_base::{Entry, Geometry};
use lsvd_objstore::Receipt;
use object_format::{Expected, Rows};
use object_uploads::{SealedRows, Uploads};
use std::alloc::{AllocError, Global};
use std::marker::Model;
use uuid::Uuid;

/// The entries of a volume that are in no object yet, its objects on their way to the store, and where each
/// sector is.
#[derive(Drop)]
pub struct ObjLog<R: Receipt> {
    batch: Batch,
    uploads: Uploads<R>,
}

impl<R: Receipt> Model for ObjLog<R> {
    ghost use Rattle.std.specs.Prelude.{IsTrue};
    ghost use Rattle.lsvd_base.specs.Limits.{is_within_limits};
    ghost use Rattle.obj_log.specs.State.{ObjLogState};

    ghost Value = { ObjLogState };

    ghost view = { λ o. record { batch = o.batch; uploads = o.uploads } };

    ghost invariant = { λ o. IsTrue (is_within_limits o.batch.geometry) };
}

impl<R: Receipt> ObjLog<R> {
    ghost use Rattle.obj_log.specs.Lending.{LendsUploads};

    /// The list of a volume with this uuid whose geometry is within the limits, and that has this many
    /// ancestors, 15 at most (conditions). Its objects up to this number are acknowledged, and have the
    /// entries up to this end. It takes no memory.
    pub fn new(
        alloc: Global,
        uuid: Uuid,
        geometry: Geometry,
        ancestors: u32,
        number: u64,
        end: u64,
    ) -> ObjLog<R>
        requires geometry { IsTrue (is_within_limits geometry) }
        requires ancestors { ancestors ≤ 15 }
        ensures batch { result.batch ≡ record {
          geometry = geometry;
          first = end;
          entries = [];
          reserved = 0;
        } }
        ensures uuid { result.uploads.uuid ≡ uuid }
        ensures sectors { result.uploads.sectors ≡ geometry.sectors }
        ensures ancestors { result.uploads.ancestors ≡ ancestors }
        ensures window { result.uploads.window ≡ record { last = number; objects = [] } }
        ensures frontier { result.uploads.queue.frontier ≡ number }
        ensures end { result.uploads.queue.end ≡ end }
        ensures sealed { result.uploads.queue.sealed ≡ [] }
        ensures receipts { result.uploads.queue.receipts ≡ [] }
        ensures removal { result.uploads.queue.removal ≡ None }
        ensures inherited { result.uploads.queue.inherited ≡ [] }
        ensures settled { result.uploads.queue.maps.settled.rows ≡ [] }
        ensures log { result.uploads.queue.maps.log.rows ≡ [] }
        ensures objects { result.uploads.queue.maps.objects.rows ≡ [] }
        ensures checkpoint { result.uploads.queue.maps.objects.checkpoint ≡ 0 }
        ensures order { IsUploads result.uploads }
    {
        ObjLog {
            batch: Batch::new(alloc, geometry, end),
            uploads: Uploads::new(alloc, uuid, geometry.sectors, ancestors, number, end),
        }
    }

    /// Takes memory for one entry more. The one error is that memory ran out, which comes only where it is
    /// missing; but for room nothing changes.
    pub fn reserve(&mut self) -> Result<(), AllocError>
        ensures room { OnOk result (HasRoomToAdd self.new) }
        ensures succeeds { HasRoomToAdd self.old → IsOk result }
        ensures same { IsSame self.old self.new }
    {
        self.batch.reserve()?;
        self.uploads.reserve()
    }

    /// Adds an entry at the end, also to a batch that is full, as a mount does. Its data begin at the sector
    /// `data_at` of the log. Memory was taken for it, the volume takes it, its seq and the sectors of data
    /// with it fit, and its data end below 2^63 (conditions). It takes no memory.
    pub fn add(&mut self, entry: Entry, data_at: u64)
        requires room { HasRoomToAdd self.old }
        requires range { IsTrue (is_in_range self.old.batch.geometry entry) }
        requires seqs { self.old.batch.first + length self.old.batch.entries < 2 ^ 64 - 1 }
        requires sectors { sum_by data_sectors self.old.batch.entries + data_sectors entry < 2 ^ 64 }
        requires places { data_at + sector_count entry < 2 ^ 63 }
        ensures added { IsAdded entry data_at self.old self.new }
        ensures order { IsUploads self.old.uploads }
    {
        self.uploads.enter(&entry, self.batch.next_seq(), data_at);
        self.batch.add(entry);
    }

    /// Seals the next data object: it has the fewest first entries of the batch that are full, or all where
    /// they are never full. Its number is answered. `Nothing` comes where the batch has no entry, `Busy`
    /// where else 16 objects are on their way to the store. Where memory ran out, but for room nothing
    /// changes. The objects are of a volume as large as the batch's, and the numbers go on below 2^64 - 1
    /// (conditions).
    pub fn seal_data(&mut self, alloc: Global) -> Result<u64, SealError>
        requires sectors { self.old.uploads.sectors ≡ self.old.batch.geometry.sectors }
        requires numbers { self.old.uploads.window.last + 1 < 2 ^ 64 - 1 }
        ensures nothing { (result ≡ Err errors.Nothing) ↔ (self.old.batch.entries ≡ []) }
        ensures busy { (result ≡ Err errors.Busy) ↔ ((0 < length self.old.batch.entries)
            × (length self.old.uploads.window.objects ≡ 16)) }
        ensures number { IfOk result (λ number. number ≡ self.old.uploads.window.last + 1) }
        ensures sealed { OnOk result (HasSealedObject self.old self.new) }
        ensures same { OnErr result (IsSame self.old self.new) }
    {
        if self.batch.entries() == 0 {
            return Err(SealError::Nothing);
        }
        if self.uploads.window().is_full() {
            return Err(SealError::Busy);
        }
        let sealed = self.batch.seal(alloc, &self.next())?;
        let end = self.batch.first_seq() + sealed.entries as u64;
        let spare = sealed.object.share()?;
        let ranges = self.uploads.put_ranges(alloc, sealed.rows.as_slice())?;
        let number = self
            .uploads
            .seal(sealed.object, spare, sealed.rows, ranges, end)?;
        self.batch.release(sealed.rest);
        Ok(number)
    }

    /// Seals what was copied by a plan into the next object, a copy, and answers its number. Fewer than 16
    /// objects are open, the numbers go on below 2^64 - 1, the objects are of a volume as large as the
    /// batch's, and the rows may stand in the next object, which has 65,536 at most (conditions). The one
    /// error is out of memory; then nothing changes but room.
    pub fn seal_copy(&mut self, alloc: Global, copied: &Copied<R>) -> Result<u64, AllocError>
        requires places { length self.old.uploads.window.objects < 16 }
        requires numbers { self.old.uploads.window.last + 1 < 2 ^ 64 - 1 }
        requires sectors { self.old.uploads.sectors ≡ self.old.batch.geometry.sectors }
        requires count { length copied.now.rows ≤ 65536 }
        requires rows { IsTrue (copy_rows_may_stand self.old.batch.geometry.sectors
            (sectors_of copied.now.rows) (self.old.uploads.window.last + 1) None 0 copied.now.rows) }
        ensures number { IfOk result (λ number. number ≡ self.old.uploads.window.last + 1) }
        ensures sealed { OnOk result (HasSealedCopy copied.now self.old self.new) }
        ensures same { OnErr result (IsSame self.old self.new) }
    {
        let end = self.batch.first_seq();
        let rows = Rows::Copy(Vec::from_slice(alloc, copied.rows())?);
        let object = write_object(alloc, self.next(), end, &rows, copied.payload())?;
        let spare = object.share()?;
        let ranges = self.uploads.copied_ranges(alloc, copied.rows())?;
        self.uploads
            .seal_copy(object, spare, into_copies(rows), ranges)
    }

    /// Counts the next number's object, which is in the store, as acknowledged, and settles it: these are its
    /// rows, the count of entries up to its end, and the receipt that the store gave for it. The batch goes
    /// on at that end. No object is past the frontier, the batch has no entry, the numbers go on below 2^64 -
    /// 1, the end is not before that of the frontier, the receipt has the object's name, and the rows are a
    /// data object's or a copy's, and fit the volume (conditions). The one error is out of memory; then
    /// nothing changes but room.
    pub fn adopt(
        &mut self,
        alloc: Global,
        rows: SealedRows,
        end: u64,
        receipt: R,
    ) -> Result<(), AllocError>
        requires none { self.old.uploads.queue.sealed ≡ [] }
        requires empty { self.old.batch.entries ≡ [] }
        requires numbers { self.old.uploads.window.last + 1 < 2 ^ 64 - 1 }
        requires order { self.old.uploads.queue.end ≤ end }
        requires no_checkpoint { is_checkpoint rows ≡ false }
        requires fit { FitSealed self.old.uploads.sectors rows }
        requires named { (R.state receipt).name ≡ numbered_name self.old.uploads.uuid
            (self.old.uploads.window.last + 1) }
        ensures adopted { OnOk result (HasAdoptedObject rows end (R.state receipt) self.old self.new) }
        ensures same { OnErr result (IsSame self.old self.new) }
        ensures order { IsUploads self.old.uploads }
    {
        // It is told that the uploads are in order, also where memory runs out.
        self.uploads.frontier();
        let ranges = self.uploads.ranges_of(alloc, &rows)?;
        self.uploads.adopt(rows, ranges, end, receipt)?;
        self.batch = Batch::new(alloc, self.batch.geometry(), end);
        Ok(())
    }

    /// The objects on their way to the store, and where each sector is.
    pub fn uploads(&self) -> &Uploads<R>
        ensures { result.now ≡ self.now.uploads }
    {
        &self.uploads
    }

    /// The same, for their jobs, removals, pins, copies and checkpoints, which leave the batch as it is.
    pub fn uploads_mut(&mut self) -> &mut Uploads<R>
        ensures* lends { sem 𝓛 (LendsUploads R.row R.Receipt self.entry result) }
        ensures is { result.now ≡ self.old.uploads }
    {
        &mut self.uploads
    }

    /// The entries that are in no object yet.
    pub fn batch(&self) -> &Batch
        ensures { result.now ≡ self.now.batch }
    {
        &self.batch
    }

    // What is expected of the next object.
    fn next(&self) -> Expected
        requires { self.now.uploads.window.last + 1 < 2 ^ 64 - 1 }
        ensures { result ≡ next_of self.now }
    {
        Expected {
            uuid: self.uploads.uuid().into_bytes(),
            number: self.uploads.window().last() + 1,
            sectors: self.batch.geometry().sectors,
            ancestors: self.uploads.ancestors(),
            end_before: Some(self.batch.first_seq()),
        }
    }
}
