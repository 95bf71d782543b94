ghost use Rattle.std.specs.Prelude.{◌≡◌, ℕ, Bool, false, List, Option, IfOk, OnErr};
ghost use Rattle.lsvd_fault.specs.Faults.{Counts};
ghost use Rattle.lsvd_device.specs.Device.{DiskState};
ghost use Rattle.lsvd_objstore.specs.Store.{StoreState};
ghost use Rattle.volume_commands.specs.declared.world.WorldError.TheVariants as errors;
ghost use Rattle.volume_commands.specs.World.{IsGiven, IsGivenStore, where_told, world_failed};

use lsvd_device::Disk;
use lsvd_fault::{Sink, Source};
use lsvd_listen::Listener;
use lsvd_objstore::Store;
use std::alloc::AllocError;
use thiserror::Error;

/// Why the world did not give what it was asked for.
#[derive(Clone, Copy, Debug, PartialEq, Eq, Error)]
pub enum WorldError {
    /// The call failed. It was counted.
    #[error("a call to the outside failed")]
    Failed,
    /// Memory ran out. Nothing was counted.
    #[error("out of memory")]
    OutOfMemory,
}

impl From<AllocError> for WorldError {
    ghost from_gives = { λ _ error. error ≡ errors.OutOfMemory };

    fn from(_: AllocError) -> WorldError {
        WorldError::OutOfMemory
    }
}

/// All that the program reaches outside itself: disks, stores and listeners at paths. A disk or a store that
/// was given out goes back to its path when it is no longer used.
pub trait World {
    /// What the program reads from.
    type In: Source;
    /// What it writes its output to.
    type Out: Sink;
    /// What it writes its errors to.
    type Err: Sink;
    /// The disks that it is given.
    type Disk: Disk + Drop;
    /// The stores that it is given.
    type Store: Store + Drop;
    /// What gives it the clients that it serves.
    type Clients: Listener + Drop;

    /// How often a call has failed. At the greatest number of its type the count stands.
    ghost faults: { Self → ℕ };

    /// Whether it tells what stands at its paths.
    ghost tells: { Bool };

    /// The disk that stands at a path, where the world tells it. None stands there while it is given out.
    ghost disk_at: { Self → List ℕ → Option DiskState };

    /// The store that stands at a path, likewise.
    ghost store_at: { Self → List ℕ → Option StoreState };

    /// The links of the clients that are to come to a path, in their order, where the world tells them.
    ghost clients_at: { Self → List ℕ → Option (List Self.Clients.Link) };

    /// The disk at a path. With a length in bytes it is made, or made anew: of that length, and zeros alone.
    /// Without one it is the disk that stands there; where there is none, the call fails.
    fn disk(&mut self, path: &str, len: Option<u64>) -> Result<Self::Disk, WorldError>
        ensures given { IfOk result (λ disk. IsGiven tells len (disk_at self.old path.now)
            (Self.Disk.state disk)) }
        ensures failed { OnErr result (disk_at self.new ≡ disk_at self.old) }
        ensures stores { store_at self.new ≡ store_at self.old }
        ensures clients { clients_at self.new ≡ clients_at self.old }
        ensures count { Counts (world_failed result) (faults self.old) (faults self.new) };

    /// The store at a path, with its objects, to be changed. Where there is none, it is made if it is to be,
    /// and else the call fails.
    fn store(&mut self, path: &str, make: bool) -> Result<Self::Store, WorldError>
        ensures given { IfOk result (λ store. IsGivenStore tells make (store_at self.old path.now)
            (Self.Store.state store)) }
        ensures failed { OnErr result (store_at self.new ≡ store_at self.old) }
        ensures disks { disk_at self.new ≡ disk_at self.old }
        ensures clients { clients_at self.new ≡ clients_at self.old }
        ensures count { Counts (world_failed result) (faults self.old) (faults self.new) };

    /// The store that stands at a path, to be read alone: all that is there is left as it is. Where there is
    /// none, the call fails.
    fn store_to_read(&mut self, path: &str) -> Result<Self::Store, WorldError>
        ensures given { IfOk result (λ store. IsGivenStore tells false (store_at self.old path.now)
            (Self.Store.state store)) }
        ensures failed { OnErr result (store_at self.new ≡ store_at self.old) }
        ensures disks { disk_at self.new ≡ disk_at self.old }
        ensures clients { clients_at self.new ≡ clients_at self.old }
        ensures count { Counts (world_failed result) (faults self.old) (faults self.new) };

    /// The listener at a path, which clients can connect to from now on.
    fn listen(&mut self, path: &str) -> Result<Self::Clients, WorldError>
        ensures clients { IfOk result (λ clients. Self.Clients.coming clients
            ≡ clients_at self.old path.now) }
        ensures disks { disk_at self.new ≡ disk_at self.old }
        ensures stores { store_at self.new ≡ store_at self.old }
        ensures count { Counts (world_failed result) (faults self.old) (faults self.new) };

    /// Takes back a disk that it gave for this path, where it stands from now on as it is now.
    fn close_disk(&mut self, path: &str, disk: Self::Disk)
        ensures stands { disk_at self.new path.now ≡ where_told tells (Self.Disk.state disk) }
        ensures stores { store_at self.new ≡ store_at self.old }
        ensures count { faults self.new ≡ faults self.old };

    /// Takes back a store that it gave for this path, where it stands from now on as it is now.
    fn close_store(&mut self, path: &str, store: Self::Store)
        ensures stands { store_at self.new path.now ≡ where_told tells (Self.Store.state store) }
        ensures disks { disk_at self.new ≡ disk_at self.old }
        ensures count { faults self.new ≡ faults self.old };

    /// Sixteen bytes that nobody can foretell.
    fn random16(&mut self) -> Result<[u8; 16], WorldError>
        ensures disks { disk_at self.new ≡ disk_at self.old }
        ensures stores { store_at self.new ≡ store_at self.old }
        ensures count { Counts (world_failed result) (faults self.old) (faults self.new) };

    /// The count of faults.
    fn faults(&self) -> u64
        ensures { result ≡ faults self.now };
}
