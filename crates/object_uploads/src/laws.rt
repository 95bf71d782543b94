ghost use Rattle.object_uploads.specs.Laws.{RecoveryFindsStream, StreamBegins, EnteringKeepsStream};
ghost use Rattle.object_uploads.specs.Laws.{SealingKeepsStream, SealingCopyKeepsStream};
ghost use Rattle.object_uploads.specs.Laws.{SealingCheckpointKeepsStream};
ghost use Rattle.object_uploads.specs.Laws.{JobsKeepStream, DoneKeepsStream, RemovalsKeepStream};
ghost use Rattle.object_uploads.specs.Laws.{MarksChangeObjectsAlone};
ghost use Rattle.object_uploads.specs.Laws.{AdoptingKeepsStream, AdoptingCopyKeepsStream};
ghost use Rattle.object_uploads.specs.ImageLaws.{ImageBegins, EnteringKeepsImage, SealingKeepsImage};
ghost use Rattle.object_uploads.specs.ImageLaws.{SealingCopyKeepsImage, RoomKeepsImage, JobsKeepImage};
ghost use Rattle.object_uploads.specs.ImageLaws.{PinsKeepImage, MarksKeepImage};
ghost use Rattle.object_uploads.specs.ImageLaws.{RemovalsKeepImage, DoneKeepsReceipts, DoneMakesImage};
ghost use Rattle.object_uploads.specs.ImageLaws.{AdoptingMakesImage, AdoptingCopyKeepsImage};

/// A law: whatever of the objects past the frontier has landed, a recovery of the store, which begins at the
/// newest checkpoint there, finds the stream up to the object before the first that is missing: the replay
/// gives the stream's owners, and each object that these name is there.
pub fn a_recovery_finds_the_stream()
    ensures { RecoveryFindsStream }
{}

/// A law: objects of a stream stay that while entries are entered, while the first of them are sealed into
/// data objects, and while copies and checkpoints are sealed; and a stream begins where there is no object
/// past the frontier.
pub fn a_stream_grows()
    ensures begins { StreamBegins }
    ensures entered { EnteringKeepsStream }
    ensures sealed { SealingKeepsStream }
    ensures copied { SealingCopyKeepsStream }
    ensures checkpoint { SealingCheckpointKeepsStream }
{}

/// A law: objects of a stream stay that while puts begin, fail and are done, in any order.
pub fn puts_keep_the_stream()
    ensures jobs { JobsKeepStream }
    ensures done { DoneKeepsStream }
{}

/// A law: objects of a stream stay that while they are pinned or marked as those that a plan takes sectors
/// from, and while removals begin, fail and are done.
pub fn removals_keep_the_stream()
    ensures removals { RemovalsKeepStream }
    ensures marks { MarksChangeObjectsAlone }
{}

/// A law: the image that the objects up to the frontier have, the receipts of the objects' own bytes, and the
/// sectors of the copies past the frontier stay while entries are entered, objects are sealed, puts begin and
/// fail, objects are pinned or marked as those that a plan takes sectors from, and removals begin, fail and
/// are done; and a new volume has the image of zeros.
pub fn the_objects_keep_their_image()
    ensures begins { ImageBegins }
    ensures entered { EnteringKeepsImage }
    ensures sealed { SealingKeepsImage }
    ensures copied { SealingCopyKeepsImage }
    ensures same { RoomKeepsImage }
    ensures jobs { JobsKeepImage }
    ensures pins { PinsKeepImage }
    ensures marks { MarksKeepImage }
    ensures removals { RemovalsKeepImage }
{}

/// A law: by a put that is done the objects of a stream come to have the image after the entries of the
/// objects that are settled then, where the receipts are for the objects' own bytes, and copies have the
/// sectors of their sources; and they stay so.
pub fn puts_make_the_image()
    ensures receipts { DoneKeepsReceipts }
    ensures image { DoneMakesImage }
{}

/// A law: where each entry of a stream is in an object that is acknowledged, an object of the next entries
/// may be adopted: the objects are those of the stream with it, and have the image after these entries. So
/// may a copy, which leaves the image as it is.
pub fn an_adopted_object_goes_on_with_the_stream()
    ensures stream { AdoptingKeepsStream }
    ensures copy { AdoptingCopyKeepsStream }
    ensures image { AdoptingMakesImage }
    ensures same_image { AdoptingCopyKeepsImage }
{}
