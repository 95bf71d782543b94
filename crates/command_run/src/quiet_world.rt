ghost use Rattle.std.specs.Prelude.{◌≡◌, Some, None, false, [], IfOk};
ghost use Rattle.lsvd_fault.specs.Faults.{CountsOne};
ghost use Rattle.lsvd_device.specs.Device.{IsDisk};
ghost use Rattle.lsvd_objstore.specs.Memory.{told_state};
ghost use Rattle.command_run.specs.Run.{CountsOneOfAll};
ghost use Rattle.volume_commands.specs.World.{IsConstant};
ghost use Rattle.command_run.specs.QuietWorld.{quiet_faults, quiet_state};

use crate::running::run;
use lsvd_device::Disk;
use lsvd_fault::{Failed, MemLink, MemSink, MemSource};
use lsvd_listen::Listener;
use lsvd_objstore::MemStore;
use std::alloc::{AllocError, Global};
use std::marker::Model;
use volume_commands::{World, WorldError};

/// A disk in memory that keeps its present bytes alone, and tells nothing of them. No call of it fails.
#[derive(Drop)]
pub struct QuietDisk {
    bytes: Vec<u8>,
}

impl Model for QuietDisk {
    ghost use Rattle.std.specs.Prelude.{ℕ, ◌<◌, ◌^◌, vec_len};

    // its length in bytes
    ghost Value = { ℕ };

    ghost view = { λ d. vec_len d.bytes };

    ghost invariant = { λ d. vec_len d.bytes < 2 ^ 64 };
}

impl QuietDisk {
    /// A disk of `len` zeros. The one error is that memory ran out.
    pub fn new(alloc: Global, len: u64) -> Result<QuietDisk, AllocError>
        ensures { IfOk result (λ disk. disk ≡ len) }
    {
        let bytes = vec![in alloc; 0; len as usize]?;
        Ok(QuietDisk { bytes })
    }

    // A fact for the proof of the caller: it is a disk. Nothing is done.
    fn is_disk(&self)
        ensures { IsDisk (quiet_state self.now) }
    {
        let _ = self.bytes.len();
    }
}

impl Disk for QuietDisk {
    ghost state = { quiet_state };

    fn len(&self) -> u64 {
        self.bytes.len() as u64
    }

    fn read(&mut self, at: u64, buf: &mut [u8]) -> Result<(), Failed> {
        let from = at as usize;
        buf.copy_from_slice(&self.bytes[from..from + buf.len()]);
        Ok(())
    }

    fn write(&mut self, at: u64, piece: &[u8]) -> Result<(), Failed> {
        let from = at as usize;
        self.bytes[from..from + piece.len()].copy_from_slice(piece);
        Ok(())
    }

    fn sync(&mut self) -> Result<(), Failed> {
        self.is_disk();
        Ok(())
    }

    fn hand_over(&mut self) {}

    fn faults(&self) -> u64 {
        0
    }
}

/// A listener to which nobody connects. No call of it fails.
#[derive(Drop)]
pub struct QuietListener {
    closed: bool,
}

impl Listener for QuietListener {
    type Link = MemLink;

    ghost given = { λ _. 0 };

    ghost closed = { λ l. l.closed };

    ghost faults = { quiet_faults };

    ghost coming = { λ _. Some [] };

    fn accept(&mut self) -> Result<Option<MemLink>, Failed> {
        self.closed = true;
        Ok(None)
    }

    fn given(&self) -> u64 {
        0
    }

    fn closed(&self) -> bool {
        self.closed
    }

    fn faults(&self) -> u64 {
        0
    }
}

/// A law: no call of the quiet world's disks, stores and listeners is ever counted. So a run in it ends by a
/// fault only where a call of the world itself, of the input or of the output failed.
pub fn a_quiet_world_counts_no_fault()
    ensures disk { IsConstant (λ disk. (quiet_state disk).faults) }
    ensures store { IsConstant (λ store. (told_state store).faults) }
    ensures clients { IsConstant (quiet_faults {T = QuietListener}) }
{}

/// Runs the program in the quiet world, as `run` does. Status 1 comes only where one call of the world
/// itself, of the input or of the output failed, which was counted once.
pub fn run_quietly(
    alloc: Global,
    words: &[String],
    world: &mut QuietWorld,
    input: &mut MemSource,
    out: &mut MemSink,
    err: &mut MemSink,
) -> u8
    ensures fault { result ≡ 1
        → CountsOneOfAll world.old.faults world.new.faults input.old.faults input.new.faults out.old.faults
        out.new.faults }
{
    a_quiet_world_counts_no_fault();
    run(alloc, words, world, input, out, err)
}

/// A world in memory for one run. Its disks and stores are new ones, and what a run makes of them is let go
/// with it. No call of them is ever counted as a fault.
#[derive(Drop)]
pub struct QuietWorld {
    alloc: Global,
    faults: u64,
}

impl QuietWorld {
    /// A world without a disk and a store.
    pub fn new(alloc: Global) -> QuietWorld {
        QuietWorld { alloc, faults: 0 }
    }

    // Counts a fault.
    fn fail(&mut self) -> WorldError
        ensures failed { result ≡ WorldError.Failed }
        ensures count { CountsOne self.old.faults self.new.faults }
    {
        self.faults = self.faults.saturating_add(1);
        WorldError::Failed
    }
}

impl World for QuietWorld {
    type In = MemSource;

    type Out = MemSink;

    type Err = MemSink;

    type Disk = QuietDisk;

    type Store = MemStore;

    type Clients = QuietListener;

    ghost faults = { λ w. w.faults };

    ghost tells = { false };

    ghost disk_at = { λ _ _. None };

    ghost store_at = { λ _ _. None };

    ghost clients_at = { λ _ _. Some [] };

    fn disk(&mut self, _path: &str, len: Option<u64>) -> Result<QuietDisk, WorldError> {
        match len {
            Some(len) => Ok(QuietDisk::new(self.alloc, len)?),
            None => Err(self.fail()),
        }
    }

    fn store(&mut self, _path: &str, make: bool) -> Result<MemStore, WorldError> {
        if make {
            Ok(MemStore::new(self.alloc))
        } else {
            Err(self.fail())
        }
    }

    fn store_to_read(&mut self, path: &str) -> Result<MemStore, WorldError> {
        self.store(path, false)
    }

    fn listen(&mut self, _path: &str) -> Result<QuietListener, WorldError> {
        Ok(QuietListener { closed: false })
    }

    // What was made of it is let go.
    fn close_disk(&mut self, _path: &str, disk: QuietDisk) {
        drop(disk);
    }

    fn close_store(&mut self, _path: &str, store: MemStore) {
        drop(store);
    }

    // They are always the same.
    fn random16(&mut self) -> Result<[u8; 16], WorldError> {
        Ok([0x5a; 16])
    }

    fn faults(&self) -> u64 {
        self.faults
    }
}
