ghost use Rattle.lsvd_names.specs.Spelling.{IsName};

use crate::bytes::{BASE, OTHER, UUID};
use lsvd_names::ObjName;
use uuid::Uuid;

/// The name of the volume's super object.
pub fn super_name() -> ObjName
    ensures { IsName result }
{
    ObjName::super_of(Uuid::from_bytes(UUID))
}

/// The name of that of another volume.
pub fn other_super_name() -> ObjName
    ensures { IsName result }
{
    ObjName::super_of(Uuid::from_bytes(OTHER))
}

/// The name of that of the ancestor of a clone.
pub fn base_super_name() -> ObjName
    ensures { IsName result }
{
    ObjName::super_of(Uuid::from_bytes(BASE))
}

/// The name of a numbered object of that ancestor.
pub fn base_object_name(number: u64) -> ObjName
    ensures { IsName result }
{
    ObjName::object(Uuid::from_bytes(BASE), number)
}

/// The name of an epoch of the volume.
pub fn epoch_name(number: u64) -> ObjName
    ensures { IsName result }
{
    ObjName::epoch(Uuid::from_bytes(UUID), number)
}

/// The name of a hold on a checkpoint of the volume.
pub fn hold_name(number: u64) -> ObjName
    ensures { IsName result }
{
    ObjName::hold(Uuid::from_bytes(UUID), number)
}

/// The name of a numbered object of the volume.
pub fn object_name(number: u64) -> ObjName
    ensures { IsName result }
{
    ObjName::object(Uuid::from_bytes(UUID), number)
}
