ghost use Rattle.upload_window.specs.Window.{HasFrontierBelowOpen, StartedNumbersWereStarted};

/// A law: a window has one frontier. It is one less than the lowest open number, or the last number where
/// none is open.
pub fn the_frontier_is_below_the_lowest_open()
    ensures { HasFrontierBelowOpen }
{}

/// A law: a number whose put is under way was started.
pub fn a_started_number_was_started()
    ensures { StartedNumbersWereStarted }
{}
