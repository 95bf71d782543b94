ghost use Rattle.stopped_volume.specs.Laws.{StandForOneVolume, StandForHistory, InheritedIsKept};

/// A law: objects of a store stand for one image, with one number before the first missing one and one end.
pub fn objects_stand_for_one_volume()
    ensures { StandForOneVolume }
{}

/// A law: where a store has the objects of a stream up to the first missing one, they stand for just the
/// entries that are in these.
pub fn landed_objects_stand_for_the_history()
    ensures { StandForHistory }
{}

/// A law: what a clone opens with stays in a store while nothing but the clone's own names changes there.
pub fn what_is_inherited_stays()
    ensures { InheritedIsKept }
{}
