ghost use Rattle.object_stream.specs.Laws.{ChangesInParts, ChangesMakeImage, KeepsOwnersFromObject};
ghost use Rattle.object_stream.specs.Laws.{OwnsByNumber, HasOneFirstMissing, StoredObjectsReplay};
ghost use Rattle.object_stream.specs.Laws.{StoredObjectsAreReplayed, ReplaysAsOne, HasOneValue};
ghost use Rattle.object_stream.specs.Laws.{ValueIsImageAfter};

/// A law: entries change a sector as the later part of them does or, where that does not, as the earlier
/// part.
pub fn entries_change_in_parts()
    ensures { ChangesInParts }
{}

/// A law: a history makes of each sector of an image what its entries' changes do to it.
pub fn changes_make_the_image()
    ensures { ChangesMakeImage }
{}

/// A law: a stream from a later object on has the same owners and ends.
pub fn owners_are_the_same_from_a_later_object()
    ensures { KeepsOwnersFromObject }
{}

/// A law: each owner is one that the stream opens with, or an object after that, up to the number that is
/// asked for.
pub fn owners_are_opening_or_later()
    ensures { OwnsByNumber }
{}

/// A law: there is at most one first missing number.
pub fn there_is_one_first_missing()
    ensures { HasOneFirstMissing }
{}

/// A law: where a store has objects of a stream, they can be replayed, and each replay gives the owners and
/// the end of the stream.
pub fn stored_objects_replay_as_the_stream()
    ensures replay { StoredObjectsReplay }
    ensures exists { StoredObjectsAreReplayed }
{}

/// A law: what objects of a store replay to, and what owners stand for, is one.
pub fn objects_have_one_replay_and_one_value()
    ensures replay { ReplaysAsOne }
    ensures value { HasOneValue }
{}

/// A law: the owners after some objects of a store stand for the image after the entries that are in these
/// objects.
pub fn owners_stand_for_the_history()
    ensures { ValueIsImageAfter }
{}
