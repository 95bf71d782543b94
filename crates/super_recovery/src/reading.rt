ghost use Rattle.std.specs.Prelude.{◌≡◌, length, min, IfOk, IfSome};
ghost use Rattle.lsvd_fault.specs.Faults.{Counts};
ghost use Rattle.lsvd_names.specs.Spelling.{IsName};
ghost use Rattle.lsvd_objstore.specs.Store.{StoreState, ReceiptState, OnlyCounts, has_failed};
ghost use Rattle.stopped_volume.specs.Store.{TellsBytes};
ghost use Rattle.super_recovery.specs.declared.reading.Front.{Front as FrontValue};
ghost use Rattle.super_recovery.specs.Fronts.{IsFrontReadOf};

use lsvd_names::ObjName;
use lsvd_objstore::{Receipt, Store, StoreError};
use std::alloc::Global;

/// What was read of an object, which may be of any length: the bytes that it begins with.
#[derive(Debug, Drop)]
pub(crate) struct Front {
    pub(crate) bytes: Vec<u8>,
    /// How many bytes the object has.
    pub(crate) len: u64,
}

/// The first bytes of the object with a name, which is one (a condition), `most` of them where it has more.
/// None is where no object has it.
pub(crate) fn read_front<S: Store>(
    alloc: Global,
    store: &mut S,
    name: &ObjName,
    most: u64,
) -> Result<Option<Front>, StoreError>
    requires { IsName name.now }
    ensures size { IfOk result (λ read. IfSome read (λ (front : FrontValue).
        length front.bytes.items ≡ min front.len most)) }
    ensures read { TellsBytes S.Receipt.state
        → IfOk result (IsFrontReadOf (S.state store.old).objects name.now most) }
    ensures unchanged { OnlyCounts (S.state store.old) (S.state store.new) }
    ensures faults { Counts (has_failed result) (S.state store.old).faults (S.state store.new).faults }
{
    let Some(receipt) = store.find(alloc, name)? else {
        return Ok(None);
    };
    let len = receipt.len();
    let mut bytes = vec![in alloc; 0u8; len.min(most) as usize]?;
    store.get(&receipt, 0, bytes.as_mut_slice())?;
    Ok(Some(Front { bytes, len }))
}
