ghost use Rattle.read_plan.specs.Laws.{GivesSectors};

/// A law: a plan gives each sector as it holds it, where its receipts tell the bytes of their objects.
pub fn a_plan_gives_its_sectors()
    ensures { GivesSectors }
{}
