ghost use Rattle.std.specs.Prelude.{◌≡◌, ◌<◌};
ghost use Rattle.lsvd_fault.specs.Faults.{CountsOne};

use crate::receipt::PlainReceipt;
use lsvd_base::ObjectBytes;
use lsvd_fault::Failed;
use lsvd_names::ObjName;
use lsvd_objstore::{Names, Receipt, Store, StoreError};
use std::alloc::{AllocError, Global};
use std::collections::BTreeMap;
use std::marker::Model;
use uuid::Uuid;

/// What a store was asked for so far, and what it holds.
#[derive(Clone, Copy)]
pub struct Traffic {
    /// How many objects were put.
    pub puts: u64,
    /// The bytes that were put.
    pub put: u64,
    /// How many gets were asked.
    pub gets: u64,
    /// The bytes that it holds.
    pub held: u64,
}

/// A store in memory of the numbered objects of one volume, which counts their bytes. Only what has an object
/// owns its bytes, so that a removal gives their memory back. Contracts see of it that it counts faults, and
/// nothing of what it holds.
#[derive(Drop)]
pub struct CountingStore {
    objects: BTreeMap<u64, ObjectBytes>,
    traffic: Traffic,
    faults: u64,
}

impl Model for CountingStore {
    ghost use Rattle.std.specs.Prelude.{None};
    ghost use Rattle.lsvd_objstore.specs.Store.{StoreState};

    ghost Value = { StoreState };

    ghost view = { λ s. record { objects = None; asked = None; faults = s.faults } };
}

impl CountingStore {
    /// A store that holds nothing.
    pub fn new(alloc: Global) -> CountingStore {
        CountingStore {
            objects: BTreeMap::new(alloc),
            traffic: Traffic {
                puts: 0,
                put: 0,
                gets: 0,
                held: 0,
            },
            faults: 0,
        }
    }

    /// What it was asked for so far, and what it holds.
    pub fn traffic(&self) -> Traffic {
        self.traffic
    }

    // Keeps an object, in place of one with its number.
    fn keep(&mut self, number: u64, bytes: ObjectBytes) -> Result<(), AllocError>
        ensures { self.new ≡ self.old }
    {
        let size = bytes.len();
        let replaced = match self.objects.insert(number, bytes)? {
            Some(old) => old.len(),
            None => 0,
        };
        self.traffic.held = self.traffic.held.wrapping_add(size).wrapping_sub(replaced);
        Ok(())
    }

    // Counts a fault.
    fn count(&mut self) -> Failed
        ensures unchanged { self.new ≡ record self.old { faults = self.new.faults } }
        ensures count { CountsOne self.old.faults self.new.faults }
    {
        self.faults = self.faults.saturating_add(1);
        Failed
    }
}

impl Store for CountingStore {
    type Receipt = PlainReceipt;

    ghost state = { λ s. s };

    fn put(
        &mut self,
        _alloc: Global,
        name: &ObjName,
        bytes: &ObjectBytes,
    ) -> Result<PlainReceipt, StoreError> {
        let size = bytes.len();
        self.keep(name.number, bytes.share()?)?;
        self.traffic.puts = self.traffic.puts.wrapping_add(1);
        self.traffic.put = self.traffic.put.wrapping_add(size);
        Ok(PlainReceipt::new(*name, size))
    }

    // Only of an object that is gone, or shorter, it fails.
    fn get(&mut self, receipt: &PlainReceipt, from: u64, buf: &mut [u8]) -> Result<(), Failed> {
        self.traffic.gets = self.traffic.gets.wrapping_add(1);
        let from = from as usize;
        let end = from + buf.len();
        let part = match self.objects.get(&receipt.name().number) {
            Some(bytes) => bytes.as_bytes().get(from..end),
            None => None,
        };
        match part {
            Some(part) => {
                buf.copy_from_slice(part);
                Ok(())
            }
            None => Err(self.count()),
        }
    }

    fn find(&mut self, _alloc: Global, name: &ObjName) -> Result<Option<PlainReceipt>, StoreError> {
        Ok(
            self.objects
                .get(&name.number)
                .map(|bytes| PlainReceipt::new(*name, bytes.len())),
        )
    }

    // It keeps no names, so there is no list of them.
    fn list(&mut self, _alloc: Global, _uuid: Uuid) -> Result<Names, StoreError> {
        Err(self.count().into())
    }

    fn remove(&mut self, receipt: &PlainReceipt) -> Result<(), Failed> {
        if let Some(bytes) = self.objects.remove(&receipt.name().number) {
            self.traffic.held = self.traffic.held.wrapping_sub(bytes.len());
        }
        Ok(())
    }

    fn faults(&self) -> u64 {
        self.faults
    }
}
