ghost use Rattle.std.specs.Prelude.{◌≡◌};
ghost use Rattle.volume_owner.specs.Owner.{IsIdle};
ghost use Rattle.volume_server.specs.OwnerDevice.{of_owner};

use lsvd_base::{Body, Geometry};
use lsvd_device::Disk;
use lsvd_fault::Failed;
use lsvd_objstore::{Receipt, Store};
use nbd_session::{BlockDevice, BlockError};
use read_cache::ReadCache;
use std::alloc::Global;
use uuid::Uuid;
use vol_core::Volume;
use volume_owner::{Owner, OwnerError};

/// The owner of a volume as the block device of sessions, one after the other. Its store is lent for each
/// request.
#[derive(Drop)]
pub struct OwnerDevice<D: Disk, R: Receipt> {
    /// The owner, who makes the requests.
    pub owner: Owner<D, R>,
    /// Blocks of the objects that were read.
    cache: ReadCache<R>,
}

impl<D: Disk, R: Receipt> OwnerDevice<D, R> {
    /// That of a volume, which reads its objects through a cache. No put of an object is under way, and no
    /// plan of a read is out (a condition), as when it was just created or mounted.
    pub fn new(volume: Volume<D, R>, cache: ReadCache<R>) -> OwnerDevice<D, R>
        requires { IsIdle volume.volume }
        ensures { result.owner ≡ volume }
    {
        OwnerDevice {
            owner: Owner::new(volume),
            cache,
        }
    }

    /// Gives the volume back. No put of an object is under way, and no plan of a read is out.
    pub fn into_volume(self) -> Volume<D, R>
        ensures volume { result ≡ self.owner }
        ensures idle { IsIdle result.volume }
    {
        let OwnerDevice { owner, cache } = self;
        drop(cache);
        owner.into_volume()
    }
}

impl<D: Disk, R: Receipt, S: Store<Receipt = R>> BlockDevice<S> for OwnerDevice<D, R> {
    ghost use Rattle.std.proofs.Common.{refl};
    ghost use Rattle.volume_owner.specs.Owner.{most_of_call};
    ghost use Rattle.volume_owner.specs.Acts.{Moment, moment_of};
    ghost use Rattle.volume_owner.proofs.CallLemmas.{nothing_call};
    ghost use Rattle.volume_server.specs.OwnerDevice.{owner_relations};

    ghost State = { Moment };

    ghost state = { λ device store. moment_of device.owner (S.state store) };

    ghost io = { owner_relations R.state };

    fn geometry(&self, _: &S) -> Geometry {
        self.owner.geometry()
    }

    fn uuid(&self, _: &S) -> Uuid {
        self.owner.uuid()
    }

    fn steps(&self, _: &S) -> u64 {
        self.owner.steps()
    }

    fn read(
        &mut self,
        alloc: Global,
        store: &mut S,
        lba: u64,
        sectors: u64,
    ) -> Result<Body, BlockError> {
        match self.owner.read(alloc, store, &mut self.cache, lba, sectors) {
            Ok(read) => Ok(read.body),
            Err(error) => Err(told(error)),
        }
    }

    fn write(
        &mut self,
        alloc: Global,
        store: &mut S,
        lba: u64,
        body: Body,
    ) -> Result<(), BlockError> {
        match self.owner.write(alloc, store, lba, body) {
            Ok(_) => Ok(()),
            Err(error) => Err(told(error)),
        }
    }

    fn zero(
        &mut self,
        alloc: Global,
        store: &mut S,
        lba: u64,
        sectors: u64,
    ) -> Result<(), BlockError> {
        match self.owner.zero(alloc, store, lba, sectors) {
            Ok(_) => Ok(()),
            Err(error) => Err(told(error)),
        }
    }

    fn flush(&mut self, _: &mut S) -> Result<(), Failed> {
        match self.owner.flush() {
            Ok(_) => Ok(()),
            Err(failed) => Err(failed),
        }
    }

    fn hand_over(&mut self, _: &S) {
        self.owner.hand_over();
    }

    ghost reads_nothing = { λ lba moment. (
      λ tells plain shows. refl,
      nothing_call R.state most_of_call moment.volume moment.store,
    ) };

    ghost enters_nothing = { λ moment. nothing_call R.state most_of_call moment.volume moment.store };
}

// What is told of an error of the owner. It refuses no sectors that a session asks for.
fn told(error: OwnerError) -> BlockError
    ensures { result ≡ of_owner error }
{
    match error {
        OwnerError::Range | OwnerError::Eio => BlockError::Io,
        OwnerError::OutOfMemory => BlockError::OutOfMemory,
    }
}
