ghost use Rattle.object_recovery.specs.Laws.{RemovalKeepsStream, ListHasSomeImage, NoneIsGoodAndBad};

/// A law: a store keeps its stream while objects past the last one of it are removed, so that a recovery may
/// be stopped and made again.
pub fn a_recovery_may_be_made_again()
    ensures { RemovalKeepsStream }
{}

/// A law: the list of a recovery has an image of the volume's size, also where receipts tell no bytes.
pub fn a_list_has_some_image()
    ensures { ListHasSomeImage }
{}

/// A law: no object is good and bad, so that the object of the greatest number that is bad is one, and none
/// is where all are good.
pub fn no_object_is_good_and_bad()
    ensures { NoneIsGoodAndBad }
{}
