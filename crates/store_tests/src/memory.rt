use crate::names::OBJECT;
use crate::objects::{is_held, put};
use crate::walk::walk;
use lsvd_objstore::{FaultStore, MemStore, PlannedFault, Store};
use test_output::{TestError, head, tell};

/// Writes what a store in memory holds, and one before which calls fail.
pub fn tell_all(rt: &HostRuntime) -> Result<(), TestError> {
    head(
        rt,
        "A store in memory: after each put or removal what an object and an epoch have",
    )?;
    walk(rt, &mut MemStore::new(rt.alloc()))?;
    head(
        rt,
        "Of two puts the first fails as planned: is it acknowledged, is there an object, and the faults",
    )?;
    tell_planned(rt, "it is lost", false)?;
    tell_planned(rt, "it lands", true)
}

fn tell_planned(rt: &HostRuntime, what: &str, lands: bool) -> Result<(), TestError> {
    let plan = [PlannedFault { call: 1, lands }];
    let mut store = FaultStore::new(rt.alloc(), MemStore::new(rt.alloc()), &plan)?;
    let is_put = put(rt.alloc(), &mut store, OBJECT, b"one").is_ok();
    let faults = store.faults();
    let mut store = store.into_store();
    let is_held = is_held(rt.alloc(), &mut store, OBJECT, b"one");
    drop(store);
    tell(rt, what, &(is_put, is_held?, faults))
}
