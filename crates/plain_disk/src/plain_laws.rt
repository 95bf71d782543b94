ghost use Rattle.plain_disk.specs.Valid.{CreatedIsPlainVolume, EventsKeepCommitted, EventsKeepPlainVolume};
ghost use Rattle.plain_disk.specs.Valid.{FlushCommitsEntries, FoldingChangesNoReply};
ghost use Rattle.plain_disk.specs.Valid.{FoldingCommutesWithEvents, FoldingCommutesWithMounts};
ghost use Rattle.plain_disk.specs.Valid.{FoldingCommutesWithStops, FoldingKeepsPlainVolume, FoldsInParts};
ghost use Rattle.plain_disk.specs.Valid.{MountsCommitEntries, MountsKeepPlainVolume, NewestLandedHoldsOwners};
ghost use Rattle.plain_disk.specs.Valid.{OwnersHaveLanded};
ghost use Rattle.plain_disk.specs.Valid.{RecoversBeforeFirstMissing, RemovedIsUnneeded};
ghost use Rattle.plain_disk.specs.Valid.{StopKeepsAcknowledged};
ghost use Rattle.plain_disk.specs.Valid.{StopsKeepPlainVolume};

/// A law: a flush that is acknowledged commits each entry so far, and so does a mount; no event leaves fewer
/// committed. A stop keeps what was committed and the objects up to the frontier, and no more than was taken.
/// A recovery gets to the last object before the first missing one.
pub fn a_stop_keeps_what_was_acknowledged()
    ensures flushed { FlushCommitsEntries }
    ensures mounted { MountsCommitEntries }
    ensures committed { EventsKeepCommitted }
    ensures kept { StopKeepsAcknowledged }
    ensures missing { RecoversBeforeFirstMissing }
{}

/// A law: a volume that was just created is a plain volume, and each event, stop and mount leaves one.
pub fn each_state_is_a_plain_volume()
    ensures created { CreatedIsPlainVolume }
    ensures events { EventsKeepPlainVolume }
    ensures stops { StopsKeepPlainVolume }
    ensures mounts { MountsKeepPlainVolume }
{}

/// A law: a volume may fold the entries of its first objects, up to the frontier, into the image that it
/// opens with, before an event, a stop or a mount, or after it; no reply changes.
pub fn entries_may_be_folded_at_any_time()
    ensures kept { FoldingKeepsPlainVolume }
    ensures parts { FoldsInParts }
    ensures replies { FoldingChangesNoReply }
    ensures events { FoldingCommutesWithEvents }
    ensures stops { FoldingCommutesWithStops }
    ensures mounts { FoldingCommutesWithMounts }
{}

/// A law: whatever has landed, the newest checkpoint that a mount finds is the newest acknowledged one or a
/// later one, and holds the owners of the volume's sectors. It has a greater number than any object that may
/// be removed or was given out for removal, and maps none of them. Each object that owns a sector after the
/// objects that the mount finds has landed.
pub fn no_mount_needs_what_is_removed()
    ensures newest { NewestLandedHoldsOwners }
    ensures removed { RemovedIsUnneeded }
    ensures there { OwnersHaveLanded }
{}
