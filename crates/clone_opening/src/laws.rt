ghost use Rattle.clone_opening.specs.Laws.{RaisesEachOwner};

/// A law: what owns a sector of raised rows is what owns it in the rows, one level further. A sector that
/// nothing owns in the rows has no owner in those that were raised.
pub fn each_owner_is_one_level_further()
    ensures { RaisesEachOwner }
{}
