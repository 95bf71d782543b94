ghost use Rattle.lsvd_objstore.specs.Laws.{PutsWhole, RemovesWhole, HasOneList, NeverFails};
ghost use Rattle.lsvd_objstore.specs.Directory.{NameIsNotTemporary};

use crate::memory::MemStore;
use crate::store::Store;

/// A law: a put or a removal, acknowledged or not, changes no other object, and its own whole or not at all.
pub fn an_object_is_changed_whole_or_not_at_all()
    ensures put { PutsWhole }
    ensures removal { RemovesWhole }
{}

/// A law: the objects of a volume have one list of their names.
pub fn a_volume_has_one_list()
    ensures { HasOneList }
{}

/// A law: no call of a store in memory fails, since none counts a fault.
pub fn a_store_in_memory_never_fails()
    ensures { NeverFails ⟦<MemStore as Store>⟧.state }
{}

/// A law: no file of a directory has the name of an object and one that a put gives it until it is whole.
pub fn a_temporary_name_is_no_objects()
    ensures { NameIsNotTemporary }
{}
