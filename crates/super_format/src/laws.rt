ghost use Rattle.super_format.specs.Laws.{SupersHaveOneSpelling, EpochsHaveOneSpelling, HoldsHaveOneSpelling};
ghost use Rattle.super_format.specs.Laws.{NoSuperBeginsAnother, NoEpochBeginsAnother, NoHoldBeginsAnother};

/// A law: what a super object, an epoch or a hold says has one spelling, and a spelling says one thing.
pub fn a_value_has_one_spelling()
    ensures supers { SupersHaveOneSpelling }
    ensures epochs { EpochsHaveOneSpelling }
    ensures holds { HoldsHaveOneSpelling }
{}

/// A law: the bytes of no super object begin those of another, and so it is with epochs and with holds.
pub fn no_spelling_begins_another()
    ensures supers { NoSuperBeginsAnother }
    ensures epochs { NoEpochBeginsAnother }
    ensures holds { NoHoldBeginsAnother }
{}
