ghost use Rattle.refine_objects.specs.PlanLaws.{ShownPlacesAreInside, PlannedShowsPlan};
ghost use Rattle.refine_objects.specs.PlanLaws.{NoneShowsNoPlan, VictimsShowPlan};
ghost use Rattle.refine_objects.specs.PlanLaws.{SealedCopyShowsSeal, RefusedSealCopyShowsNone};
ghost use Rattle.refine_objects.specs.PlanLaws.{EndedShowsDropped};
ghost use Rattle.refine_objects.specs.PlanLaws.{KeptSourcesKeepPlan, OthersKeepPlan};
ghost use Rattle.refine_objects.specs.PlanLaws.{RoomKeepsPlan, AddedKeepsPlan};
ghost use Rattle.refine_objects.specs.PlanLaws.{SealedKeepsPlan, JobsKeepPlan, DoneKeepsPlan, PinsKeepPlan};
ghost use Rattle.refine_objects.specs.PlanLaws.{RemovalsKeepPlan};

/// A law: a plan of a copy that is made, what is sealed of it, and a plan that is given up do to the list
/// what they do to the plain volume, with the same sectors and the same number.
pub fn plans_show_the_plain_volume_s()
    ensures inside { ShownPlacesAreInside }
    ensures planned { PlannedShowsPlan }
    ensures none { NoneShowsNoPlan }
    ensures victims { VictimsShowPlan }
    ensures sealed { SealedCopyShowsSeal }
    ensures refused { RefusedSealCopyShowsNone }
    ensures ended { EndedShowsDropped }
{}

/// A law: each other call keeps the plan that is out, whose sources stay in the store.
pub fn calls_keep_the_plan_that_is_out()
    ensures sources { KeptSourcesKeepPlan }
    ensures others { OthersKeepPlan }
    ensures room { RoomKeepsPlan }
    ensures added { AddedKeepsPlan }
    ensures sealed { SealedKeepsPlan }
    ensures jobs { JobsKeepPlan }
    ensures done { DoneKeepsPlan }
    ensures pins { PinsKeepPlan }
    ensures removals { RemovalsKeepPlan }
{}
