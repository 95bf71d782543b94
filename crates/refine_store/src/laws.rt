ghost use Rattle.refine_store.specs.Laws.{JobIsObject, EventsKeepObject, MountsKeepObject, LeftHasVolume};
ghost use Rattle.refine_store.specs.Laws.{VolumeHasObjects, KnownIsPlaced, MountedStands, StandsWithAnyCache};

/// A law: a job has the bytes of the plain volume's object, which stay so while events go on and over a mount
/// that recovers the object.
pub fn jobs_have_the_bytes_of_objects()
    ensures job { JobIsObject }
    ensures events { EventsKeepObject }
    ensures mounts { MountsKeepObject }
{}

/// A law: whatever a stop leaves of the store has the plain volume up to the object before the first missing
/// number, and so the objects of what a mount finds of it, where the newest checkpoint says.
pub fn a_stopped_store_has_the_objects()
    ensures left { LeftHasVolume }
    ensures objects { VolumeHasObjects }
    ensures placed { KnownIsPlaced }
{}

/// A law: once the objects past that one are gone, the store stands for the volume that a mount makes,
/// whatever its cache is.
pub fn a_mount_leaves_the_store_standing()
    ensures mounted { MountedStands }
    ensures cache { StandsWithAnyCache }
{}
