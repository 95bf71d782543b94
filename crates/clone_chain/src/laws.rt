ghost use Rattle.clone_chain.specs.Laws.{HasOneLevel, HasOneUuid, IsAmongLevels};

/// A law: a uuid is at one level of a chain at most, a level has one uuid at most, and it has one exactly
/// where it is from 1 up to the number of ancestors.
pub fn levels_and_uuids_agree()
    ensures level { HasOneLevel }
    ensures uuid { HasOneUuid }
    ensures range { IsAmongLevels }
{}
