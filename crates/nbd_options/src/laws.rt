ghost use Rattle.nbd_options.specs.Laws.{HasOneAnswer, HasOneEnd};

/// A law: an option has one answer, and input has one end of a negotiation and one list of bytes that is sent
/// to it, where neither a fault nor want of memory broke the negotiation off. Where the export was entered,
/// the requests begin at one place.
pub fn a_negotiation_has_one_end()
    ensures answer { HasOneAnswer }
    ensures end { HasOneEnd }
{}
