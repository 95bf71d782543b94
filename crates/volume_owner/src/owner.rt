ghost use Rattle.std.specs.Prelude.{◌≡◌, ◌≤◌, IsTrue};
ghost use Rattle.lsvd_base.specs.declared.entry.Entry.TheVariants as entries;
ghost use Rattle.lsvd_base.specs.Limits.{is_within_limits};
ghost use Rattle.vol_core.specs.View.{volume_geometry, volume_uuid};
ghost use Rattle.volume_owner.specs.Owner.{IsIdle, max_steps};
ghost use Rattle.volume_owner.specs.Calls.{EnterOf, FlushOf, DrainOf, ReadOf};
ghost use Rattle.volume_owner.specs.Collecting.{CollectOf, CollectAllOf};

use crate::collecting::{Turn, collect};
use crate::collecting_all::{Collected, collect_all};
use crate::draining::{Drained, drain};
use crate::entering::enter;
use crate::error::OwnerError;
use crate::reading::{SectorsRead, flush, read};
use lsvd_base::{Body, Entry, Geometry};
use lsvd_device::Disk;
use lsvd_fault::Failed;
use lsvd_objstore::{Receipt, Store};
use read_cache::ReadCache;
use std::alloc::Global;
use std::marker::Model;
use uuid::Uuid;
use vol_core::Volume;

/// A volume with one owner, who makes whole requests of it. The store is lent for each.
///
/// Each call has the condition that the volume made 2^59 steps at most since it was mounted, and itself makes
/// 2^40 at most, but `collect_all`, which makes 2^42. So who asks `steps` before each request has room for
/// several calls.
#[derive(Drop)]
pub struct Owner<D: Disk, R: Receipt> {
    volume: Volume<D, R>,
}

impl<D: Disk, R: Receipt> Model for Owner<D, R> {
    ghost use Rattle.vol_core.specs.Volume.{SteppedVolume};
    ghost use Rattle.volume_owner.specs.Owner.{IsIdle};

    ghost Value = { SteppedVolume };

    ghost view = { λ o. o.volume };

    ghost invariant = { λ o. IsIdle o.volume.volume };
}

impl<D: Disk, R: Receipt> Owner<D, R> {
    /// The owner of a volume. No put of an object is under way, and no plan of a read is out (a condition),
    /// as when it was just created or mounted.
    pub fn new(volume: Volume<D, R>) -> Owner<D, R>
        requires { IsIdle volume.volume }
        ensures { result ≡ volume }
    {
        Owner { volume }
    }

    /// Writes the data at the sectors from `lba` on, and answers how many entries the history has now.
    ///
    /// `Range` comes exactly where the sectors are not 1 to `max_write` that lie inside the volume. `Eio`
    /// comes where a call of the disk or of the store failed, which that counted, and `OutOfMemory` where
    /// memory ran out. After an error nothing was entered.
    pub fn write<S: Store<Receipt = R>>(
        &mut self,
        alloc: Global,
        store: &mut S,
        lba: u64,
        body: Body,
    ) -> Result<u64, OwnerError>
        requires { self.old.steps ≤ max_steps }
        ensures { EnterOf R.state (entries.Write lba body) result self.old self.new (S.state store.old)
            (S.state store.new) }
    {
        enter(alloc, &mut self.volume, store, Entry::Write { lba, body })
    }

    /// Puts zeros at `sectors` sectors from `lba` on, and answers how many entries the history has now.
    ///
    /// `Range` comes exactly where there is no sector, or not all of them lie inside the volume; the other
    /// errors are those of `write`. After an error nothing was entered.
    pub fn zero<S: Store<Receipt = R>>(
        &mut self,
        alloc: Global,
        store: &mut S,
        lba: u64,
        sectors: u64,
    ) -> Result<u64, OwnerError>
        requires { self.old.steps ≤ max_steps }
        ensures { EnterOf R.state (entries.Zero lba sectors) result self.old self.new (S.state store.old)
            (S.state store.new) }
    {
        enter(alloc, &mut self.volume, store, Entry::Zero { lba, sectors })
    }

    /// Makes each entry so far durable, and answers how many the history has. The one error is that a call of
    /// the disk failed, which that counted.
    pub fn flush(&mut self) -> Result<u64, Failed>
        requires { self.old.steps ≤ max_steps }
        ensures { FlushOf R.state result self.old self.new }
    {
        flush(&mut self.volume)
    }

    /// One turn of a collection: copies live sectors out of objects of which few are live, and seals them as
    /// the next object. Answers how many were copied.
    ///
    /// What is live is told by the objects that are acknowledged. So a turn that comes before the last copy
    /// is would copy the same sectors again: let it be put first, as the next full batch or a drain does.
    ///
    /// `Eio` comes where a get failed, which the store counted, and `OutOfMemory` where memory ran out;
    /// `Range` never comes. After an error the volume is as it was.
    pub fn collect<S: Store<Receipt = R>>(
        &mut self,
        alloc: Global,
        store: &mut S,
    ) -> Result<Turn, OwnerError>
        requires { self.old.steps ≤ max_steps }
        ensures { CollectOf R.state result self.old self.new (S.state store.old) (S.state store.new) }
    {
        collect(alloc, &mut self.volume, store)
    }

    /// A whole collection: drains, makes turns and puts their copies until there is nothing to copy, and
    /// drains again, which removes the objects that the copies replaced. What the volume holds stays. Answers
    /// how many sectors were copied, and how many objects were removed. A plan of a copy that is out is given
    /// up first.
    ///
    /// `Eio` comes where a call of the disk or of the store failed, which that counted, and `OutOfMemory`
    /// where memory ran out, or where 2^36 copies were made, or 2^37 objects removed, and there may be more;
    /// `Range` never comes. After an error some of this may be done, and the call may be made again.
    pub fn collect_all<S: Store<Receipt = R>>(
        &mut self,
        alloc: Global,
        store: &mut S,
    ) -> Result<Collected, OwnerError>
        requires { self.old.steps ≤ max_steps }
        ensures { CollectAllOf R.state result self.old self.new (S.state store.old) (S.state store.new) }
    {
        collect_all(alloc, &mut self.volume, store)
    }

    /// Seals and puts until no entry is unsealed and each object is acknowledged, seals and puts a checkpoint
    /// where the newest object is none, removes each object that no mount needs, and then flushes. Answers
    /// how many entries the history has, and how many objects were removed. A server calls it before it ends.
    ///
    /// `Eio` comes where a call of the disk or of the store failed, which that counted, and `OutOfMemory`
    /// where memory ran out, or where 2^37 objects were removed and there may be more; `Range` never comes.
    /// After an error some of this may be done, and the call may be made again. Nothing is entered.
    pub fn drain<S: Store<Receipt = R>>(
        &mut self,
        alloc: Global,
        store: &mut S,
    ) -> Result<Drained, OwnerError>
        requires { self.old.steps ≤ max_steps }
        ensures { DrainOf R.state result self.old self.new (S.state store.old) (S.state store.new) }
    {
        drain(alloc, &mut self.volume, store)
    }

    /// Reads `sectors` sectors from `lba` on, those of objects through a cache. Where the volume tells what
    /// it holds, they are its sectors.
    ///
    /// `Range` comes exactly where the sectors are not 1 to `max_write` that lie inside the volume. `Eio`
    /// comes where a call of the disk or of the store failed, which that counted, and `OutOfMemory` where
    /// memory ran out.
    pub fn read<S: Store<Receipt = R>>(
        &mut self,
        alloc: Global,
        store: &mut S,
        cache: &mut ReadCache<R>,
        lba: u64,
        sectors: u64,
    ) -> Result<SectorsRead, OwnerError>
        requires { self.old.steps ≤ max_steps }
        ensures { ReadOf R.state lba sectors result self.old self.new (S.state store.old)
            (S.state store.new) }
    {
        read(alloc, &mut self.volume, store, cache, lba, sectors)
    }

    /// Lets the disk hand over what it gathered of writes, so that it outlasts the end of this program. For
    /// the volume nothing changes.
    pub fn hand_over(&mut self)
        ensures { self.new ≡ self.old }
    {
        self.volume.with_disk(|disk| disk.hand_over());
    }

    /// How many steps the volume made since it was mounted.
    pub fn steps(&self) -> u64
        ensures { result ≡ self.now.steps }
    {
        self.volume.steps()
    }

    /// The geometry of the volume, which no call changes. Each size keeps its limits.
    pub fn geometry(&self) -> Geometry
        ensures same { result ≡ volume_geometry self.now.volume }
        ensures limits { IsTrue (is_within_limits result) }
    {
        self.volume.geometry()
    }

    /// The uuid of the volume, which no call changes.
    pub fn uuid(&self) -> Uuid
        ensures { result ≡ volume_uuid self.now.volume }
    {
        self.volume.uuid()
    }

    /// Gives the volume back. No put of an object is under way, and no plan of a read is out.
    pub fn into_volume(self) -> Volume<D, R>
        ensures volume { result ≡ self }
        ensures idle { IsIdle result.volume }
    {
        self.volume
    }
}
