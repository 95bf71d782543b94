ghost use Rattle.commit_body.specs.Laws.{IsOneSector, DeterminesBody};

/// A law: a body, whose uuid has 16 bytes, has as many bytes as a sector.
pub fn a_body_is_one_sector()
    ensures { IsOneSector }
{}

/// A law: two bodies of one sector are one body, with one number.
pub fn a_sector_is_one_body()
    ensures { DeterminesBody }
{}
