use lsvd_base::ObjectBytes;
use lsvd_fault::Failed;
use lsvd_names::ObjName;
use lsvd_objstore::{MemReceipt, MemStore, Names, Store, StoreError};
use std::alloc::Global;
use uuid::Uuid;

/// A store in memory that counts the gets.
#[derive(Drop)]
pub struct CountedStore {
    store: MemStore,
    gets: u64,
}

impl CountedStore {
    /// Over a store of which no get counts yet.
    pub fn new(store: MemStore) -> CountedStore {
        CountedStore { store, gets: 0 }
    }

    /// How many gets were asked of it. At `u64::MAX` the count stands.
    pub fn gets(&self) -> u64 {
        self.gets
    }
}

impl Store for CountedStore {
    ghost use Rattle.lsvd_objstore.specs.Memory.{told_state};

    type Receipt = MemReceipt;

    ghost state = { λ s. told_state s.store };

    fn put(
        &mut self,
        alloc: Global,
        name: &ObjName,
        bytes: &ObjectBytes,
    ) -> Result<MemReceipt, StoreError> {
        self.store.put(alloc, name, bytes)
    }

    fn get(&mut self, receipt: &MemReceipt, from: u64, buf: &mut [u8]) -> Result<(), Failed> {
        self.gets = self.gets.saturating_add(1);
        self.store.get(receipt, from, buf)
    }

    fn find(&mut self, alloc: Global, name: &ObjName) -> Result<Option<MemReceipt>, StoreError> {
        self.store.find(alloc, name)
    }

    fn list(&mut self, alloc: Global, uuid: Uuid) -> Result<Names, StoreError> {
        self.store.list(alloc, uuid)
    }

    fn remove(&mut self, receipt: &MemReceipt) -> Result<(), Failed> {
        self.store.remove(receipt)
    }

    fn faults(&self) -> u64 {
        self.store.faults()
    }
}
