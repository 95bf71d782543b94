ghost use Rattle.std.specs.Prelude.{◌≡◌, IfOk, OnOk, OnErr};
ghost use Rattle.plain_disk.specs.Collection.{planned_copy, plan_copy_reply, after_plan_copy};
ghost use Rattle.plain_disk.specs.Collection.{seal_copy_reply, after_seal_copy, drop_plan_reply};
ghost use Rattle.plain_disk.specs.Collection.{after_drop_plan};

use super::{MAX_OPEN, PlainVolume};
use crate::checkpoints::owned_in;
use crate::collection::{payloads, planned_copy};
use object_stream::{Content, CopiedSector, CopiedSectors, StreamObject};
use plain_disk::PlainReply;
use std::alloc::AllocError;

// The events of a collection.
impl PlainVolume {
    // Plans a copy, where no plan is out and there is a victim. The one error is that memory ran out, after
    // which the volume is as before.
    pub(super) fn plan_copy(&mut self) -> Result<PlainReply, AllocError>
        ensures reply { IfOk result (λ reply. reply ≡ plan_copy_reply self.old) }
        ensures volume { OnOk result (self.new ≡ after_plan_copy self.old) }
        ensures err { OnErr result (self.new ≡ self.old) }
    {
        if self.plan.is_some() {
            return Ok(PlainReply::Busy);
        }
        let sectors = self.planned_copy()?;
        if sectors.is_empty() {
            return Ok(PlainReply::Nothing);
        }
        let plan = Vec::from_slice(*self.pins.allocator(), sectors.as_slice())?;
        self.plan = Some(CopiedSectors::new(plan));
        Ok(PlainReply::Copying(CopiedSectors::new(sectors)))
    }

    // What a plan of a copy takes. It costs as much as the volume's sectors times its objects and entries.
    // The one error is that memory ran out.
    fn planned_copy(&self) -> Result<Vec<CopiedSector>, AllocError>
        ensures { IfOk result (λ sectors. sectors.items ≡ planned_copy self.now) }
    {
        let volume = self;
        let alloc = *volume.pins.allocator();
        let frontier = volume.frontier();
        let owned = owned_in(alloc, &volume.stream, frontier, volume.geometry.sectors)?;
        let payloads = payloads(alloc, &volume.stream, volume.geometry.sectors)?;
        planned_copy(
            alloc,
            owned.as_slice(),
            payloads.as_slice(),
            volume.held.as_slice(),
            frontier,
            volume.geometry.batch,
        )
    }

    // Seals what was copied, where it is that of the plan that is out and fewer than 16 objects are open. The
    // one error is that memory ran out, after which the volume is as before.
    pub(super) fn seal_copy(&mut self, is_planned: bool) -> Result<PlainReply, AllocError>
        ensures reply { IfOk result (λ reply. reply ≡ seal_copy_reply self.old is_planned) }
        ensures volume { OnOk result (self.new ≡ after_seal_copy is_planned self.old) }
        ensures err { OnErr result (self.new ≡ self.old) }
    {
        match &self.plan {
            Some(plan) if is_planned => {
                if self.uploads.len() == MAX_OPEN {
                    return Ok(PlainReply::Busy);
                }
                let sectors = Vec::from_slice(*self.pins.allocator(), plan.as_slice())?;
                let end = self.end_at(self.last_number());
                let content = Content::Copy(CopiedSectors::new(sectors));
                let reply = self.seal_object(StreamObject { content, end }, false)?;
                self.plan = None;
                Ok(reply)
            }
            _ => Ok(PlainReply::Nothing),
        }
    }

    // Gives the plan of a copy up that is out.
    pub(super) fn drop_plan(&mut self) -> PlainReply
        ensures reply { result ≡ drop_plan_reply self.old }
        ensures volume { self.new ≡ after_drop_plan self.old }
    {
        if self.plan.is_none() {
            return PlainReply::Nothing;
        }
        self.plan = None;
        PlainReply::Dropped
    }
}
