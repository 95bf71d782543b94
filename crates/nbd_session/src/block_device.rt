ghost use Rattle.std.specs.Prelude.{◌≡◌, IsTrue, is_err};
ghost use Rattle.lsvd_base.specs.declared.entry.Entry.TheVariants as entries;
ghost use Rattle.lsvd_base.specs.Limits.{is_within_limits, may_transfer};
ghost use Rattle.lsvd_base.specs.Range.{is_in_range};
ghost use Rattle.nbd_session.specs.BlockDevice.{BlockRelations, HasRoom, MayFlush, Reads, Enters};
ghost use Rattle.nbd_session.specs.BlockDevice.{Flushes, geometry_at, uuid_at, steps_at, ReadsNothing};
ghost use Rattle.nbd_session.specs.BlockDevice.{EntersNothing};

use crate::block_error::BlockError;
use lsvd_base::{Body, Geometry};
use lsvd_fault::Failed;
use std::alloc::Global;
use uuid::Uuid;

/// A volume as the block device that a session serves. Its store, or what stands for one, is lent for each
/// call.
///
/// It may be one of several over the same volume: what its calls do is told between moments of its own, and
/// nothing of what others do in between.
pub trait BlockDevice<S> {
    /// The moments of it and its store.
    ghost State: { Type 0 };

    /// The moment at which they are.
    ghost state: { Self → S → Self.State };

    /// What is known of the volume at a moment, and what calls do between two.
    ghost io: { BlockRelations Self.State };

    /// The geometry of the volume, which no call changes. Each size keeps its limits.
    fn geometry(&self, store: &S) -> Geometry
        ensures same { result ≡ geometry_at io (state self.now store.now) }
        ensures limits { IsTrue (is_within_limits result) };

    /// The uuid of the volume, which no call changes.
    fn uuid(&self, store: &S) -> Uuid
        ensures { result ≡ uuid_at io (state self.now store.now) };

    /// How many steps the volume made since it was mounted. Each call that makes some has the condition that
    /// they are fewer than 2^58.
    fn steps(&self, store: &S) -> u64
        ensures { result ≡ steps_at io (state self.now store.now) };

    /// Reads `sectors` sectors from `lba` on. They are 1 to `max_write` that lie inside the volume (a
    /// condition).
    fn read(
        &mut self,
        alloc: Global,
        store: &mut S,
        lba: u64,
        sectors: u64,
    ) -> Result<Body, BlockError>
        requires room { HasRoom io (state self.old store.old) }
        requires fits { IsTrue (may_transfer (geometry_at io (state self.old store.old)) lba sectors) }
        ensures { Reads io lba sectors result (state self.old store.old) (state self.new store.new) };

    /// Writes the data at the sectors from `lba` on. They are 1 to `max_write` that lie inside the volume (a
    /// condition). After an error nothing was entered. It leaves room for a flush.
    fn write(
        &mut self,
        alloc: Global,
        store: &mut S,
        lba: u64,
        body: Body,
    ) -> Result<(), BlockError>
        requires room { HasRoom io (state self.old store.old) }
        requires fits { IsTrue (is_in_range (geometry_at io (state self.old store.old))
            (entries.Write lba body)) }
        ensures enters { Enters io (entries.Write lba body) result (state self.old store.old)
            (state self.new store.new) }
        ensures room { MayFlush io (state self.new store.new) };

    /// Puts zeros at `sectors` sectors from `lba` on. They are some that lie inside the volume (a condition).
    /// After an error nothing was entered. It leaves room for a flush.
    fn zero(
        &mut self,
        alloc: Global,
        store: &mut S,
        lba: u64,
        sectors: u64,
    ) -> Result<(), BlockError>
        requires room { HasRoom io (state self.old store.old) }
        requires fits { IsTrue (is_in_range (geometry_at io (state self.old store.old))
            (entries.Zero lba sectors)) }
        ensures enters { Enters io (entries.Zero lba sectors) result (state self.old store.old)
            (state self.new store.new) }
        ensures room { MayFlush io (state self.new store.new) };

    /// Makes each entry so far durable. The one error is that a call of the disk failed, which that counted.
    ///
    /// A session makes it after another call for the same request, so its condition is the weaker one, that
    /// the steps are 2^59 at most.
    fn flush(&mut self, store: &mut S) -> Result<(), Failed>
        requires { MayFlush io (state self.old store.old) }
        ensures { Flushes io (is_err result) (state self.old store.old) (state self.new store.new) };

    /// Hands to the device what it gathered of writes, so that what was answered outlasts the end of this
    /// program. For the volume nothing changes.
    fn hand_over(&mut self, store: &S)
        ensures { state self.new store.now ≡ state self.old store.now };

    /// To read nothing may be no call.
    ghost reads_nothing: { ReadsNothing io };

    /// To enter nothing may be no call.
    ghost enters_nothing: { EntersNothing io };
}
