ghost use Rattle.refine_objects.specs.Laws.{ShownHaveCounts, NewShowsCreated, ShownWithOtherCache};
ghost use Rattle.refine_objects.specs.Laws.{ShownWithOtherPlaces, ShownFromFirst};
ghost use Rattle.refine_objects.specs.Laws.{RoomShowsSame, AddedShowsEntry, SealedShowsSeal};
ghost use Rattle.refine_objects.specs.Laws.{RefusedSealShowsNone};
ghost use Rattle.refine_objects.specs.Laws.{TakenShowsTake, FailedShowsFailed, DoneShowsDone};

/// A law: the list of a volume that was just created shows it. A list has the counts of the plain volume that
/// it shows. It shows it whatever the volume's cache is, and wherever data of entries before the frontier's
/// end, or of entries to come, are said to begin. While no object is on its way, it shows the volume as it
/// opens, too, where it shows that with its first objects folded into the image.
pub fn the_list_shows_a_plain_volume()
    ensures created { NewShowsCreated }
    ensures counts { ShownHaveCounts }
    ensures cache { ShownWithOtherCache }
    ensures places { ShownWithOtherPlaces }
    ensures from_first { ShownFromFirst }
{}

/// A law: after each call the list shows what the plain volume becomes by the same event. A seal gives the
/// plain volume's number, and where none is made the plain volume makes none.
pub fn calls_show_what_the_plain_volume_does()
    ensures room { RoomShowsSame }
    ensures added { AddedShowsEntry }
    ensures sealed { SealedShowsSeal }
    ensures refused { RefusedSealShowsNone }
    ensures taken { TakenShowsTake }
    ensures failed { FailedShowsFailed }
    ensures done { DoneShowsDone }
{}
