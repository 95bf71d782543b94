ghost use Rattle.obj_log.specs.Laws.{NewListBeginsStream, RoomKeepsStreamOfList, AddingKeepsStreamOfList};
ghost use Rattle.obj_log.specs.Laws.{SealingKeepsStreamOfList, SealingCopyKeepsStreamOfList};
ghost use Rattle.obj_log.specs.Laws.{SealingCheckpointKeepsStreamOfList, AdoptingCopyKeepsStreamOfList};
ghost use Rattle.obj_log.specs.Laws.{RemovalsKeepStreamOfList};
ghost use Rattle.obj_log.specs.Laws.{JobsKeepStreamOfList, DoneKeepsStreamOfList, AdoptingKeepsStreamOfList};
ghost use Rattle.obj_log.specs.ImageLaws.{NewListHasBlank, RoomKeepsImageOfList, AddingKeepsImageOfList};
ghost use Rattle.obj_log.specs.ImageLaws.{SealingKeepsImageOfList, SealingCopyKeepsImageOfList};
ghost use Rattle.obj_log.specs.ImageLaws.{JobsKeepImageOfList, DoneMakesImageOfList};
ghost use Rattle.obj_log.specs.ImageLaws.{AdoptingMakesImageOfList, AdoptingCopyKeepsImageOfList};

/// A law: a list that was just made, or began with a checkpoint, is that of a stream without entries and
/// objects. It stays that of a stream while nothing changes but room, while entries are added, the first of
/// them, copies and checkpoints are sealed, puts begin, fail and are done, in any order, objects are pinned,
/// and removals begin, fail and are done, and while objects of the next entries, and copies, are adopted.
pub fn the_list_stays_a_stream()
    ensures begins { NewListBeginsStream }
    ensures same { RoomKeepsStreamOfList }
    ensures added { AddingKeepsStreamOfList }
    ensures sealed { SealingKeepsStreamOfList }
    ensures copied { SealingCopyKeepsStreamOfList }
    ensures checkpoint { SealingCheckpointKeepsStreamOfList }
    ensures removals { RemovalsKeepStreamOfList }
    ensures jobs { JobsKeepStreamOfList }
    ensures done { DoneKeepsStreamOfList }
    ensures adopted { AdoptingKeepsStreamOfList }
    ensures copy_adopted { AdoptingCopyKeepsStreamOfList }
{}

/// A law: the objects of a list that was just made have the image of zeros. They keep it while nothing
/// changes but room, while entries are added and sealed, while copies are sealed, and while puts begin and
/// fail. By a put that is done, and by an object that is adopted, it becomes the image after the entries of
/// the objects that are settled then, where the receipts are for the objects' own bytes, and copies have the
/// sectors of their sources.
pub fn the_objects_have_an_image()
    ensures begins { NewListHasBlank }
    ensures same { RoomKeepsImageOfList }
    ensures added { AddingKeepsImageOfList }
    ensures sealed { SealingKeepsImageOfList }
    ensures copied { SealingCopyKeepsImageOfList }
    ensures jobs { JobsKeepImageOfList }
    ensures done { DoneMakesImageOfList }
    ensures adopted { AdoptingMakesImageOfList }
    ensures copy_adopted { AdoptingCopyKeepsImageOfList }
{}
