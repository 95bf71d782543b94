ghost use Rattle.log_room.specs.Laws.{RecordLiesInside, KeepsRoom, TakesNeed, MovesByNeed};

/// A law: a record lies inside the log, keeps the head below its end, and takes what it needs,
/// round the end.
pub fn a_record_takes_what_it_needs()
    ensures inside { RecordLiesInside }
    ensures kept { KeepsRoom }
    ensures taken { TakesNeed }
    ensures moved { MovesByNeed }
{}
