ghost use Rattle.std.specs.Prelude.{◌≡◌};
ghost use Rattle.plain_disk.specs.State.{PlainState};
ghost use Rattle.vol_core.specs.Volume.{volume_of};
ghost use Rattle.vol_core.specs.Shows.{Shows, IsSmall};
ghost use Rattle.vol_mount.specs.Steps.{mounted_of};

use cache_log::CacheLog;
use lsvd_device::Disk;
use lsvd_objstore::Receipt;
use obj_log::ObjLog;
use std::alloc::Global;
use std::marker::Model;
use vol_core::Volume;

/// A volume that was mounted.
#[derive(Drop)]
pub struct Mounted<D: Disk, R: Receipt> {
    /// The volume, which has made no step.
    pub volume: Volume<D, R>,
    /// How many entries its history has.
    pub entries: u64,
    /// The number of the object before the first missing one.
    pub number: u64,
}

impl<D: Disk, R: Receipt> Model for Mounted<D, R> {
    ghost use Rattle.vol_mount.specs.Mounted.{MountedState};

    ghost Value = { MountedState };

    ghost view = { λ m. record { volume = m.volume; entries = m.entries; number = m.number } };
}

/// The volume of a list and a log. They show a plain volume, and their numbers are small (conditions).
pub(crate) fn assemble<D: Disk, R: Receipt>(
    alloc: Global,
    objects: ObjLog<R>,
    log: CacheLog<D>,
) -> Mounted<D, R>
    requires shows { (plain : PlainState) × Shows (volume_of objects log) plain }
    requires small { IsSmall (volume_of objects log) 0 }
    ensures { result ≡ mounted_of objects log }
{
    let (entries, number) = (objects.batch().next_seq(), objects.uploads().last());
    let volume = Volume::new(alloc, objects, log);
    Mounted {
        volume,
        entries,
        number,
    }
}
