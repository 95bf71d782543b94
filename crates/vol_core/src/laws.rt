ghost use Rattle.vol_core.specs.Opening.{ShowsFromFirst};

/// A law: where no object is on its way, a volume that was opened at a later object shows the plain volume
/// from its first object on.
pub fn a_volume_shows_what_was_folded()
    ensures { ShowsFromFirst }
{}
