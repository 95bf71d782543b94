ghost use Rattle.std.specs.Prelude.{◌≡◌, List, [], Option, Some, None, true, map, option_map, string_bytes};
ghost use Rattle.lsvd_device.specs.Device.{DiskState};
ghost use Rattle.lsvd_fault.specs.Faults.{CountsOne};
ghost use Rattle.lsvd_fault.specs.Memory.{LinkState};
ghost use Rattle.lsvd_listen.specs.Memory.{MemListenerState};
ghost use Rattle.lsvd_objstore.specs.Memory.{told_receipt, told_state};
ghost use Rattle.stopped_volume.specs.Store.{TellsBytes};
ghost use Rattle.volume_commands.specs.Report.{IsTold, line_of, status_of};
ghost use Rattle.command_run.specs.MemWorld.{places_of};
ghost use Rattle.command_run.specs.Run.{Reaches, Runs};

use crate::running::run;
use lsvd_device::{Disk, MemDisk};
use lsvd_fault::{MemSink, MemSource};
use lsvd_listen::MemListener;
use lsvd_objstore::MemStore;
use std::alloc::Global;
use std::marker::Model;
use volume_commands::{Report, World, WorldError};

/// A world in memory: one disk, one store, and the clients that are to come, at whichever path they are asked
/// for. It tells what they hold. A disk, a store or clients that are given out are not given again before
/// they went back.
#[derive(Drop)]
pub struct MemWorld {
    alloc: Global,
    disk: Option<MemDisk>,
    store: Option<MemStore>,
    clients: Option<MemListener>,
    faults: u64,
}

impl Model for MemWorld {
    ghost use Rattle.std.specs.Prelude.{option_map};
    ghost use Rattle.command_run.specs.MemWorld.{MemWorldState};

    ghost Value = { MemWorldState };

    ghost view = { λ w. record {
      disk = w.disk;
      store = w.store;
      clients = option_map (λ clients. clients.left) w.clients;
      faults = w.faults;
    } };
}

impl MemWorld {
    /// A world without a disk and without a store, to which these clients are to come.
    pub fn new(alloc: Global, clients: MemListener) -> MemWorld
        ensures { result ≡ record { disk = None; store = None; clients = Some clients.left; faults = 0 } }
    {
        MemWorld {
            alloc,
            disk: None,
            store: None,
            clients: Some(clients),
            faults: 0,
        }
    }

    // Counts a fault.
    fn fail(&mut self) -> WorldError
        ensures failed { result ≡ WorldError.Failed }
        ensures count { CountsOne self.old.faults self.new.faults }
        ensures rest { self.new ≡ record self.old { faults = self.new.faults } }
    {
        self.faults = self.faults.saturating_add(1);
        WorldError::Failed
    }
}

impl World for MemWorld {
    type In = MemSource;

    type Out = MemSink;

    type Err = MemSink;

    type Disk = MemDisk;

    type Store = MemStore;

    type Clients = MemListener;

    ghost faults = { λ w. w.faults };

    ghost tells = { true };

    ghost disk_at = { λ w _. w.disk };

    ghost store_at = { λ w _. option_map told_state w.store };

    ghost clients_at = { λ w _. w.clients };

    fn disk(&mut self, _path: &str, len: Option<u64>) -> Result<MemDisk, WorldError> {
        if let Some(len) = len {
            let disk = MemDisk::new(self.alloc, len)?;
            let _is_disk = disk.len();
            self.disk = None;
            return Ok(disk);
        }
        match self.disk.take() {
            Some(disk) => {
                let _is_disk = disk.len();
                Ok(disk)
            }
            None => Err(self.fail()),
        }
    }

    fn store(&mut self, _path: &str, make: bool) -> Result<MemStore, WorldError> {
        match self.store.take() {
            Some(store) => Ok(store),
            None if make => Ok(MemStore::new(self.alloc)),
            None => Err(self.fail()),
        }
    }

    fn store_to_read(&mut self, path: &str) -> Result<MemStore, WorldError> {
        self.store(path, false)
    }

    fn listen(&mut self, _path: &str) -> Result<MemListener, WorldError> {
        match self.clients.take() {
            Some(clients) => Ok(clients),
            None => Err(self.fail()),
        }
    }

    fn close_disk(&mut self, _path: &str, disk: MemDisk) {
        self.disk = Some(disk);
    }

    fn close_store(&mut self, _path: &str, store: MemStore) {
        self.store = Some(store);
    }

    // They are always the same.
    fn random16(&mut self) -> Result<[u8; 16], WorldError> {
        Ok([0x5a; 16])
    }

    fn faults(&self) -> u64 {
        self.faults
    }
}

/// Runs the program in the world in memory, as `run` does. What it makes of the disk and the store of that
/// world, and which clients it serves, is told in full: the receipts of a store in memory tell their bytes.
pub fn run_in_memory(
    alloc: Global,
    words: &[String],
    world: &mut MemWorld,
    input: &mut MemSource,
    out: &mut MemSink,
    err: &mut MemSink,
) -> u8
    ensures report { (report : Report) × (result ≡ status_of report)
        × IsTold (Some err.old.taken) (Some err.new.taken) err.old.faults err.new.faults (line_of report)
        × Runs (map string_bytes words.now) report (Some input.old.left) (Some out.old.taken)
        (Some out.new.taken)
        × Reaches true (λ (disk : DiskState). disk) told_receipt
        (λ (clients : MemListenerState). record {
          given = clients.given;
          closed = clients.closed;
          faults = clients.faults;
        })
        (λ (clients : MemListenerState). Some clients.left)
        (λ (link : LinkState). record {
          bytes = record { left = Some link.left; sent = Some link.taken };
          held = [];
          faults = link.faults;
        })
        (map string_bytes words.now) report (λ _. world.old.clients) (places_of world.old)
        (places_of world.new) (Some out.old.taken) (Some out.new.taken) }
    ensures told { TellsBytes told_receipt }
{
    run(alloc, words, world, input, out, err)
}
