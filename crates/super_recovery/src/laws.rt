ghost use Rattle.super_recovery.specs.Laws.{SaysTheSame, OthersKeepVolume, HasOneSuper, HasOneNewest};
ghost use Rattle.super_recovery.specs.Laws.{HasOneVolume, NextEpochIsBegun, VolumeIsCreated};

/// A law: what a store says of a volume as a whole depends on the volume's super object, its epochs and its
/// holds alone, which a put or a removal of any other object leaves as they are.
pub fn other_objects_say_nothing()
    ensures same { SaysTheSame }
    ensures others { OthersKeepVolume }
{}

/// A law: objects say one thing of a volume.
pub fn a_store_has_one_volume()
    ensures one_super { HasOneSuper }
    ensures newest { HasOneNewest }
    ensures volume { HasOneVolume }
{}

/// A law: the volume that a store has is in the next epoch once that was put.
pub fn a_next_epoch_is_begun()
    ensures { NextEpochIsBegun }
{}

/// A law: a store has a volume once its super object, without ancestors, and its epoch 0 were put, where it
/// has no other epoch and no hold of it.
pub fn a_volume_is_created()
    ensures { VolumeIsCreated }
{}
