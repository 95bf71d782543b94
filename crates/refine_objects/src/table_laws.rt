ghost use Rattle.refine_objects.specs.TableLaws.{NewTableShowsCreated, TableShownWithOtherCache};
ghost use Rattle.refine_objects.specs.TableLaws.{RoomShowsSameTable, AddedShowsTable, SealedShowsTable};
ghost use Rattle.refine_objects.specs.TableLaws.{TakenShowsTable, FailedShowsTable, DoneShowsTable};
ghost use Rattle.refine_objects.specs.TableLaws.{SealedShowsSealCheckpoint, RefusedSealCheckpointShowsNone};
ghost use Rattle.refine_objects.specs.TableLaws.{TakenShowsRemoval, NoneTakenShowsNone, FinishedShowsRemoved};
ghost use Rattle.refine_objects.specs.TableLaws.{TakenBackShowsGivenBack, NotOutShowsNothing};
ghost use Rattle.refine_objects.specs.TableLaws.{PinnedShowsPin, UnpinnedShowsUnpin};
ghost use Rattle.refine_objects.specs.TableLaws.{PinnedEachShowPins, UnpinnedEachShowUnpins};
ghost use Rattle.refine_objects.specs.TableLaws.{PinnedAreShown, NewestIsShown};

/// A law: the table of a volume that was just created shows it, and each call of the list that seals no
/// checkpoint and removes and pins nothing keeps what the table shows.
pub fn calls_keep_what_the_table_shows()
    ensures created { NewTableShowsCreated }
    ensures cache { TableShownWithOtherCache }
    ensures room { RoomShowsSameTable }
    ensures added { AddedShowsTable }
    ensures sealed { SealedShowsTable }
    ensures taken { TakenShowsTable }
    ensures failed { FailedShowsTable }
    ensures done { DoneShowsTable }
{}

/// A law: seals of checkpoints, removals and pins do to the list what they do to the plain volume, with the
/// same numbers.
pub fn checkpoints_and_removals_show_the_plain_volume_s()
    ensures checkpoint { SealedShowsSealCheckpoint }
    ensures busy { RefusedSealCheckpointShowsNone }
    ensures newest { NewestIsShown }
    ensures removal { TakenShowsRemoval }
    ensures none { NoneTakenShowsNone }
    ensures removed { FinishedShowsRemoved }
    ensures given_back { TakenBackShowsGivenBack }
    ensures not_out { NotOutShowsNothing }
    ensures pinned { PinnedShowsPin }
    ensures unpinned { UnpinnedShowsUnpin }
    ensures pinned_each { PinnedEachShowPins }
    ensures unpinned_each { UnpinnedEachShowUnpins }
    ensures are_pinned { PinnedAreShown }
{}
