use crate::names::{EPOCH, OBJECT, OTHER_HOLD, name};
use crate::objects::{held, put};
use lsvd_objstore::Store;
use std::alloc::Global;
use test_output::TestError;

// A put under a name, or a removal, which is made twice.
struct Step {
    what: &'static str,
    name: &'static str,
    bytes: Option<&'static str>,
}

const STEPS: &[Step] = &[
    Step {
        what: "a put of the object",
        name: OBJECT,
        bytes: Some("one"),
    },
    Step {
        what: "a put of the epoch",
        name: EPOCH,
        bytes: Some(""),
    },
    Step {
        what: "a longer put of the object",
        name: OBJECT,
        bytes: Some("longer than before"),
    },
    Step {
        what: "a put of another volume's hold",
        name: OTHER_HOLD,
        bytes: Some("one"),
    },
    Step {
        what: "a removal of the object",
        name: OBJECT,
        bytes: None,
    },
    Step {
        what: "a removal of the epoch",
        name: EPOCH,
        bytes: None,
    },
    Step {
        what: "a put of the object again",
        name: OBJECT,
        bytes: Some("one"),
    },
];

/// Makes puts and removals, and writes after each what an object and an epoch have.
pub fn walk<S: Store>(rt: &HostRuntime, store: &mut S) -> Result<(), TestError> {
    for step in STEPS {
        make(rt.alloc(), store, step)?;
        let object = text_of(rt.alloc(), store, OBJECT)?;
        let epoch = text_of(rt.alloc(), store, EPOCH)?;
        println!(rt; "  {}: object {object:?}, epoch {epoch:?}", step.what)?;
    }
    Ok(())
}

fn make<S: Store>(alloc: Global, store: &mut S, step: &Step) -> Result<(), TestError> {
    match step.bytes {
        Some(text) => drop(put(alloc, store, step.name, text.as_bytes())?),
        None => remove_twice(alloc, store, step.name)?,
    }
    Ok(())
}

fn remove_twice<S: Store>(alloc: Global, store: &mut S, text: &str) -> Result<(), TestError> {
    if let Some(receipt) = store.find(alloc, &name(text)?)? {
        store.remove(&receipt)?;
        store.remove(&receipt)?;
    }
    Ok(())
}

// The text of the object with a name, if there is one.
fn text_of<S: Store>(
    alloc: Global,
    store: &mut S,
    text: &str,
) -> Result<Option<String>, TestError> {
    let Some(bytes) = held(alloc, store, text)? else {
        return Ok(None);
    };
    let text = String::from_utf8(bytes).map_err(|_| TestError::Refused)?;
    Ok(Some(text))
}

/// Writes the names of a volume's objects.
pub fn tell_list<S: Store>(rt: &HostRuntime, store: &mut S, volume: &str) -> Result<(), TestError> {
    let names = store.list(rt.alloc(), name(volume)?.uuid)?;
    println!(rt; "  {} names", names.as_slice().len())?;
    for name in names.as_slice() {
        println!(rt; "  {:?} {:x}", name.kind, name.number)?;
    }
    Ok(())
}
