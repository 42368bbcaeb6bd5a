// The theory of charges and windows: the one number that a bucket keeps is the largest excess over all windows.
ghost use Rattle.meter.specs.Laws.{FillIsWindows, FillLater, FillCharge, WindowsHold, FollowsNone, FollowsCharge, FollowsSkip, FollowsFill};

// The fill bounds every window to now, falls at the rate and rises by each cost; windows keep to depth exactly where
// each charge did.
pub fn fills_are_windows()
    ensures windows { FillIsWindows }
    ensures later { FillLater }
    ensures charge { FillCharge }
    ensures hold { WindowsHold }
{}

// A bucket has the fill of what was charged, from an empty one on, through charges that it counts and others.
pub fn buckets_follow_charges()
    ensures none { FollowsNone }
    ensures charge { FollowsCharge }
    ensures skip { FollowsSkip }
    ensures fill { FollowsFill }
{}
