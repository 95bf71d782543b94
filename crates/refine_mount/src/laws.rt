ghost use Rattle.refine_mount.specs.Laws.{MountsAsFound, FoundHasCommit, MountedIsAtRest};
ghost use Rattle.refine_mount.specs.Laws.{RecoveredShowsObjects, RecoveredShowsTable, ListShowsSome};
ghost use Rattle.refine_mount.specs.Laws.{EntriesGoOn, EntriesKeepTable};
ghost use Rattle.refine_mount.specs.Laws.{OpenedShowsLog, CommittedShowsLog, ReopenedShowsLog};
ghost use Rattle.refine_mount.specs.Laws.{OpenedHasCommitted, AddedAreLogged};
ghost use Rattle.refine_mount.specs.Laws.{MountedIsPlainVolume, MountedIsGoingOn};
ghost use Rattle.refine_mount.specs.Laws.{MountsKeptAgain, MountsLostAgain, LosesAgain};
ghost use Rattle.refine_mount.specs.Laws.{MountedIsStored, CommittingKeepsMount, FatesKeepCommit};

/// A law: a list that was recovered shows a plain volume at rest, with its table: that which a mount without
/// the cache makes of a plain volume whose objects the store has, on a device whose log may be of another
/// length, and in each case some. With entries more it shows that with these entries.
pub fn a_list_shows_a_volume_at_rest()
    ensures rest { MountedIsAtRest }
    ensures recovered { RecoveredShowsObjects }
    ensures table { RecoveredShowsTable }
    ensures some { ListShowsSome }
    ensures entries { EntriesGoOn }
    ensures entries_table { EntriesKeepTable }
{}

/// A law: a log that was opened shows the log that is found on the device, and once it was committed again,
/// that with such a commit. Its commits are the volume's own.
pub fn a_log_shows_what_is_found()
    ensures opened { OpenedShowsLog }
    ensures committed { CommittedShowsLog }
    ensures reopened { ReopenedShowsLog }
    ensures own { OpenedHasCommitted }
    ensures logged { AddedAreLogged }
{}

/// A law: a volume at rest goes on with the entries that are found as a plain volume, which is what a mount
/// with the cache is to make. What it is to make of a plain volume is what it makes of the one that it finds,
/// opened at the newest checkpoint.
pub fn a_mount_goes_on_with_the_entries_found()
    ensures as_found { MountsAsFound }
    ensures commit { FoundHasCommit }
    ensures plain { MountedIsPlainVolume }
    ensures going_on { MountedIsGoingOn }
{}

/// A law: a mount of what a mount made, of the same objects and with its own commit, makes the same, also
/// where one of them is without the cache; a later one without it does so on a log of any length. The store
/// has what a mount with the cache made as it had what that found.
pub fn mounting_again_changes_nothing()
    ensures kept { MountsKeptAgain }
    ensures lost { MountsLostAgain }
    ensures loses { LosesAgain }
    ensures stored { MountedIsStored }
{}

/// A law: whatever a stop leaves of the device while a mount commits the log again reads as the commit that
/// was found of the plain volume, or as that of the volume that is mounted.
pub fn stops_keep_what_is_mounted()
    ensures { CommittingKeepsMount }
{}

/// A law: what a stop leaves of the cache, by the fates of the pending writes, reads as the commit that the
/// plain cache keeps then.
pub fn stops_leave_commits()
    ensures { FatesKeepCommit }
{}
