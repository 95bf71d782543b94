ghost use Rattle.refine_log.specs.Laws.{FormattedShowsEmpty, SameShowsSame, TrimmedShowsSame};
ghost use Rattle.refine_log.specs.Laws.{AppendedShowsRecord, CommitShowsCommit, MadeCommitHasFuse};
ghost use Rattle.refine_log.specs.Laws.{FailedCommitHasFuse, EntryHasFuse, PlainCommitTakesCalls};
ghost use Rattle.refine_log.specs.PendingLaws.{SyncedShowsPending, StillShowsPending, EntryShowsPending};
ghost use Rattle.refine_log.specs.PendingLaws.{CommitShowsPending, FailedCommitShowsPending};
ghost use Rattle.refine_log.specs.StopLaws.{NowKeeps, SinceKeeps, CommittingKeeps, CommitStandsFor};
ghost use Rattle.refine_log.specs.StopLaws.{FormattedHasCommitted, SameHasCommitted, TrimmedHasCommitted};
ghost use Rattle.refine_log.specs.StopLaws.{AppendedHasCommitted, CommitHasCommitted};

/// A law: a log that was just formatted shows an empty log of the plain volume. Each call then does what the
/// plain log does.
pub fn the_log_shows_the_plain_log()
    ensures formatted { FormattedShowsEmpty }
    ensures same { SameShowsSame }
    ensures trimmed { TrimmedShowsSame }
    ensures appended { AppendedShowsRecord }
    ensures committed { CommitShowsCommit }
{}

/// A law: calls get as far as some fuse lets them, which is that of the disk, where it tells it and has room
/// for them.
pub fn calls_have_fuses()
    ensures made { MadeCommitHasFuse }
    ensures failed { FailedCommitHasFuse }
    ensures entry { EntryHasFuse }
    ensures plain { PlainCommitTakesCalls }
{}

/// A law: on a disk that was just synced nothing is pending, and each call of the log leaves pending what it
/// leaves of the plain cache.
pub fn calls_leave_pending_what_the_plain_cache_has()
    ensures synced { SyncedShowsPending }
    ensures still { StillShowsPending }
    ensures entry { EntryShowsPending }
    ensures commit { CommitShowsPending }
    ensures failed { FailedCommitShowsPending }
{}

/// A law: whatever a stop leaves of the cache reads as the last commit of the plain volume or as the
/// unfinished one, with the volume's entries; while all entries are committed, it may also read as that
/// commit. What reads so stands for the entries up to the commit's head.
pub fn stops_keep_committed_entries()
    ensures now { NowKeeps }
    ensures since { SinceKeeps }
    ensures committing { CommittingKeeps }
    ensures stands { CommitStandsFor }
{}

/// A law: a log that was just formatted has commits of its volume and its epoch alone, with entries in range,
/// and each call keeps it so.
pub fn calls_keep_what_has_committed()
    ensures formatted { FormattedHasCommitted }
    ensures same { SameHasCommitted }
    ensures trimmed { TrimmedHasCommitted }
    ensures appended { AppendedHasCommitted }
    ensures committed { CommitHasCommitted }
{}
