ghost use Rattle.std.specs.Prelude.{◌≡◌, false, None};
ghost use Rattle.lsvd_fault.specs.Faults.{Counts, CountsOne};
ghost use Rattle.volume_commands.specs.World.{world_failed};

use crate::world::{World, WorldError};
use gathered_disk::{GatheredDisk, Untold};
use lsvd_base::ObjectBytes;
use lsvd_device::{Disk, FileDisk, FileError};
use lsvd_fault::{Failed, ReadSource, WriteSink};
use lsvd_listen::{ListenError, Listener, SocketLink, SocketListener};
use lsvd_names::ObjName;
use lsvd_objstore::{DirReceipt, DirStore, DirectoryError, Names, Store, StoreError};
use std::alloc::{AllocError, Global};
use std::fmt::Display;
use std::io::{Read, Write};
use std::marker::PhantomData;
use std::random::RandomSource;
use uuid::Uuid;

/// The real world: streams, files and directories of the operating system. What the system says of a call
/// that failed is told on standard error, in one line that begins with the path.
#[derive(Drop)]
pub struct RealWorld<'a, R: Read + Drop, O: Write + Drop, E: Write + Drop> {
    rt: &'a HostRuntime,
    faults: u64,
    streams: PhantomData<(R, O, E)>,
}

impl<'a, R: Read + Drop, O: Write + Drop, E: Write + Drop> RealWorld<'a, R, O, E> {
    /// A world whose streams are of these types.
    pub fn new(rt: &'a HostRuntime) -> RealWorld<'a, R, O, E> {
        RealWorld {
            rt,
            faults: 0,
            streams: PhantomData,
        }
    }

    // Counts a fault.
    fn count(&mut self) -> WorldError
        ensures failed { result ≡ WorldError.Failed }
        ensures count { CountsOne self.old.faults self.new.faults }
    {
        self.faults = self.faults.saturating_add(1);
        WorldError::Failed
    }

    // Opens the directory of a store, which is made where it is absent if it is to be.
    fn open_store(&mut self, path: &str, make: bool) -> Result<RealStore<'a>, WorldError>
        ensures { Counts (world_failed result) self.old.faults self.new.faults }
    {
        let place = Place::new(self.rt, path)?;
        let opened = if make {
            DirStore::create(self.rt, path)
        } else {
            DirStore::open(self.rt, path)
        };
        match opened {
            Ok(directory) => Ok(RealStore { place, directory }),
            Err(DirectoryError::OutOfMemory) => Err(WorldError::OutOfMemory),
            Err(error) => {
                place.tell(error);
                Err(self.count())
            }
        }
    }
}

impl<'a, R: Read + Drop, O: Write + Drop, E: Write + Drop> World for RealWorld<'a, R, O, E> {
    type In = ReadSource<R>;

    type Out = WriteSink<O>;

    type Err = WriteSink<E>;

    type Disk = GatheredDisk<RealDisk<'a>, Untold>;

    type Store = RealStore<'a>;

    type Clients = RealListener<'a>;

    ghost faults = { λ w. w.faults };

    ghost tells = { false };

    ghost disk_at = { λ _ _. None };

    ghost store_at = { λ _ _. None };

    ghost clients_at = { λ _ _. None };

    fn disk(
        &mut self,
        path: &str,
        len: Option<u64>,
    ) -> Result<GatheredDisk<RealDisk<'a>, Untold>, WorldError> {
        let place = Place::new(self.rt, path)?;
        let opened = match len {
            Some(len) => FileDisk::create(self.rt, path, len),
            None => FileDisk::open(self.rt, path),
        };
        match opened {
            Ok(file) => {
                let disk = RealDisk { place, file };
                Ok(GatheredDisk::new(self.rt.alloc(), disk, Untold)?)
            }
            Err(FileError::OutOfMemory) => Err(WorldError::OutOfMemory),
            Err(error) => {
                place.tell(error);
                Err(self.count())
            }
        }
    }

    fn store(&mut self, path: &str, make: bool) -> Result<RealStore<'a>, WorldError> {
        let mut store = self.open_store(path, make)?;
        match store.clear() {
            Ok(()) => Ok(store),
            Err(StoreError::OutOfMemory) => Err(WorldError::OutOfMemory),
            Err(StoreError::Failed) => Err(self.count()),
        }
    }

    // What stopped puts left stays.
    fn store_to_read(&mut self, path: &str) -> Result<RealStore<'a>, WorldError> {
        self.open_store(path, false)
    }

    fn listen(&mut self, path: &str) -> Result<RealListener<'a>, WorldError> {
        let place = Place::new(self.rt, path)?;
        match SocketListener::bind(self.rt, path) {
            Ok(socket) => Ok(RealListener { place, socket }),
            Err(ListenError::OutOfMemory) => Err(WorldError::OutOfMemory),
            Err(error) => {
                place.tell(error);
                Err(self.count())
            }
        }
    }

    // What it gathered is handed over, and its file is closed.
    fn close_disk(&mut self, _path: &str, disk: GatheredDisk<RealDisk<'a>, Untold>) {
        let (disk, _) = disk.into_disk();
        drop(disk);
    }

    fn close_store(&mut self, _path: &str, store: RealStore<'a>) {
        drop(store);
    }

    fn random16(&mut self) -> Result<[u8; 16], WorldError> {
        let mut bytes = [0; 16];
        match self.rt.fill_bytes(&mut bytes) {
            Ok(()) => Ok(bytes),
            Err(error) => {
                let _ = eprintln!(self.rt; "lsvdctl: random bytes: {error}");
                Err(self.count())
            }
        }
    }

    fn faults(&self) -> u64 {
        self.faults
    }
}

// A path, at which faults are told.
#[derive(Drop)]
struct Place<'a> {
    rt: &'a HostRuntime,
    path: String,
}

impl<'a> Place<'a> {
    fn new(rt: &'a HostRuntime, path: &str) -> Result<Place<'a>, AllocError> {
        let path = String::from_str(rt.alloc(), path)?;
        Ok(Place { rt, path })
    }

    // Writes a line about a fault to standard error.
    fn tell<D: Display + Drop>(&self, why: D) {
        let path = self.path.as_str();
        let _ = eprintln!(self.rt; "lsvdctl: {path}: {why}");
    }
}

/// A disk over a file, which tells each of its faults.
#[derive(Drop)]
pub struct RealDisk<'a> {
    place: Place<'a>,
    file: FileDisk,
}

impl RealDisk<'_> {
    // Tells a call that failed.
    fn judge(&self, outcome: Result<(), Failed>) -> Result<(), Failed>
        ensures { result ≡ outcome }
    {
        if outcome.is_err()
            && let Some(error) = self.file.last_error()
        {
            self.place.tell(error);
        }
        outcome
    }
}

impl Disk for RealDisk<'_> {
    ghost use Rattle.lsvd_device.specs.File.{disk_over};

    ghost state = { λ d. disk_over d.file };

    fn len(&self) -> u64 {
        self.file.len()
    }

    fn read(&mut self, at: u64, buf: &mut [u8]) -> Result<(), Failed> {
        let outcome = self.file.read(at, buf);
        self.judge(outcome)
    }

    fn write(&mut self, at: u64, piece: &[u8]) -> Result<(), Failed> {
        let outcome = self.file.write(at, piece);
        self.judge(outcome)
    }

    fn sync(&mut self) -> Result<(), Failed> {
        let outcome = self.file.sync();
        self.judge(outcome)
    }

    fn hand_over(&mut self) {
        self.file.hand_over();
    }

    fn faults(&self) -> u64 {
        self.file.faults()
    }
}

/// A store over a directory, which tells each of its faults.
#[derive(Drop)]
pub struct RealStore<'a> {
    place: Place<'a>,
    directory: DirStore,
}

impl RealStore<'_> {
    // Removes what stopped puts left.
    fn clear(&mut self) -> Result<(), StoreError> {
        let outcome = self.directory.clear();
        self.judge(outcome)
    }

    // Tells a call that failed.
    fn judge<T>(&self, outcome: Result<T, StoreError>) -> Result<T, StoreError>
        ensures { result ≡ outcome }
    {
        if let Err(StoreError::Failed) = &outcome {
            self.tell();
        }
        outcome
    }

    // Tells why the last call that failed did.
    fn tell(&self) {
        if let Some(error) = self.directory.last_error() {
            self.place.tell(error);
        }
    }
}

impl Store for RealStore<'_> {
    ghost use Rattle.lsvd_objstore.specs.Directory.{shelf_store};

    type Receipt = DirReceipt;

    ghost state = { λ s. shelf_store s.directory };

    fn put(
        &mut self,
        alloc: Global,
        name: &ObjName,
        bytes: &ObjectBytes,
    ) -> Result<DirReceipt, StoreError> {
        let outcome = self.directory.put(alloc, name, bytes);
        self.judge(outcome)
    }

    fn get(&mut self, receipt: &DirReceipt, from: u64, buf: &mut [u8]) -> Result<(), Failed> {
        let outcome = self.directory.get(receipt, from, buf);
        if outcome.is_err() {
            self.tell();
        }
        outcome
    }

    fn find(&mut self, alloc: Global, name: &ObjName) -> Result<Option<DirReceipt>, StoreError> {
        let outcome = self.directory.find(alloc, name);
        self.judge(outcome)
    }

    fn list(&mut self, alloc: Global, uuid: Uuid) -> Result<Names, StoreError> {
        let outcome = self.directory.list(alloc, uuid);
        self.judge(outcome)
    }

    fn remove(&mut self, receipt: &DirReceipt) -> Result<(), Failed> {
        let outcome = self.directory.remove(receipt);
        if outcome.is_err() {
            self.tell();
        }
        outcome
    }

    fn faults(&self) -> u64 {
        self.directory.faults()
    }
}

/// A listener at a socket, which tells each of its faults.
#[derive(Drop)]
pub struct RealListener<'a> {
    place: Place<'a>,
    socket: SocketListener,
}

impl Listener for RealListener<'_> {
    type Link = SocketLink;

    ghost given = { λ l. l.socket.given };

    ghost closed = { λ _. false };

    ghost faults = { λ l. l.socket.faults };

    ghost coming = { λ _. None };

    fn accept(&mut self) -> Result<Option<SocketLink>, Failed> {
        let outcome = self.socket.accept();
        if outcome.is_err()
            && let Some(error) = self.socket.last_error()
        {
            self.place.tell(error);
        }
        outcome
    }

    fn given(&self) -> u64 {
        self.socket.given()
    }

    fn closed(&self) -> bool {
        false
    }

    fn faults(&self) -> u64 {
        self.socket.faults()
    }
}
