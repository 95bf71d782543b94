ghost use Rattle.volume_maps.specs.Laws.{SettlesAsReplay, SettlesPlaces, PlacesAreRanks};
ghost use Rattle.volume_maps.specs.Laws.{LogKeepsLaterEntries, SettlesCopyAsReplay, SettlesCopyPlaces};

/// A law: the owner of each sector after the rows of a data object are settled is that after the object's
/// replay; and at its place the object's bytes have the sector that was put.
pub fn settling_is_a_replay()
    ensures owners { SettlesAsReplay }
    ensures places { SettlesPlaces }
{}

/// A law: where the rows of a data object do to each sector what some entries do, a sector that these put is
/// after the settling where they have it in the payload: after those below it that they put.
pub fn settled_places_are_ranks()
    ensures { PlacesAreRanks }
{}

/// A law: where rows do to a sector what some entries do, the log's map keeps after them just what later
/// entries left.
pub fn the_log_keeps_later_entries()
    ensures { LogKeepsLaterEntries }
{}

/// A law: the owner of each sector after the rows of a copy are settled is that after the copy's replay; and
/// one that the copy takes is at a place where the copy's bytes have the sector.
pub fn settling_a_copy_is_a_replay()
    ensures owners { SettlesCopyAsReplay }
    ensures places { SettlesCopyPlaces }
{}
