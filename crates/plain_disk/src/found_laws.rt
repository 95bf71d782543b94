ghost use Rattle.plain_disk.specs.Found.{CheckpointGoesOn, CommitsAreLater, CreatedOpensFirst};
ghost use Rattle.plain_disk.specs.Found.{CreatedSealsCheckpoints, EventsKeepOpening};
ghost use Rattle.plain_disk.specs.Found.{EventsSealCheckpoints, FoundAgain, FoundHasCounts, FoundHasPresent};
ghost use Rattle.plain_disk.specs.Found.{FoundHasStream, FoundIsPlainVolume, LosesOnSameLog};
ghost use Rattle.plain_disk.specs.Found.{MappedHaveLanded, MountsFromKeepPlainVolume};
ghost use Rattle.plain_disk.specs.Found.{MountsKeepOpening, MountsOfFound, MountsSealCheckpoints};
ghost use Rattle.plain_disk.specs.Found.{OwnersArePast, StopsKeepOpening, StopsSealCheckpoints};

/// A law: what a mount finds of a plain volume is one, with its frontier at the number that a recovery gets
/// to. Of the objects up to that number just those are missing that were given out for removal and have not
/// landed.
pub fn a_mount_finds_a_plain_volume()
    ensures found { FoundIsPlainVolume }
    ensures counts { FoundHasCounts }
    ensures present { FoundHasPresent }
{}

/// A law: a mount of a plain volume, opened at the newest checkpoint that has landed, is a mount of what is
/// found, with any commit or on a new device. It gives a plain volume, where the commit's tail is not before
/// the last one's; and that is found again, where just the objects have landed that it found.
pub fn a_mount_is_a_mount_of_what_is_found()
    ensures mounts { MountsOfFound }
    ensures same_log { LosesOnSameLog }
    ensures valid { MountsFromKeepPlainVolume }
    ensures later { CommitsAreLater }
    ensures again { FoundAgain }
{}

/// A law: what a mount finds has the objects, the entries and the owners of the volume's sectors, from the
/// newest checkpoint that has landed on.
pub fn a_mount_finds_what_the_volume_has()
    ensures stream { FoundHasStream }
{}

/// A law: a volume that is followed from its beginning on opens at its first object, and each owner of its
/// sectors is an object of its own, or the ancestor's with which it opens there. Its newest checkpoint goes
/// on only, each of its checkpoints is one of its objects, and what the newest one that has landed maps is
/// there.
pub fn a_volume_is_followed_from_its_beginning_on()
    ensures created { CreatedOpensFirst }
    ensures events { EventsKeepOpening }
    ensures stops { StopsKeepOpening }
    ensures mounts { MountsKeepOpening }
    ensures owners { OwnersArePast }
    ensures goes_on { CheckpointGoesOn }
    ensures created_seals { CreatedSealsCheckpoints }
    ensures events_seal { EventsSealCheckpoints }
    ensures stops_seal { StopsSealCheckpoints }
    ensures mounts_seal { MountsSealCheckpoints }
    ensures mapped { MappedHaveLanded }
{}
