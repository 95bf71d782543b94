ghost use Rattle.lsvd_base.specs.Laws.{KeepsCount, KeepsOtherSectors, WritesData, WritesZeros};
ghost use Rattle.lsvd_base.specs.Laws.{AppliesInParts};

/// A law: an entry inside an image changes the sectors that it covers, to its data or to zeros, and no
/// others.
pub fn an_entry_changes_its_sectors_only()
    ensures count { KeepsCount }
    ensures others { KeepsOtherSectors }
    ensures write { WritesData }
    ensures zero { WritesZeros }
{}

/// A law: to apply a history is to apply its first part, and then the rest.
pub fn a_history_is_applied_in_order()
    ensures { AppliesInParts }
{}
