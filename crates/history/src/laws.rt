// The law of windows, of every history whose answers are the ones that the history before them gives.
ghost use Rattle.history.specs.Windows.{WindowLaw};

// Each stretch from a carried record to itself or a later one keeps to rate and depth, at every bucket of every node and flow.
pub fn windows_hold()
    ensures { WindowLaw }
{}
