// One bucket: its fill at a moment, whether it has room for a cost, and a charge.
ghost use Rattle.std.specs.Prelude.{◌≡◌, ◌+◌, ◌≤◌, nat_le};
ghost use Rattle.meter.specs.Rules.{level, filled};

use crate::measures::{Bucket, Grains, Moment};

impl Grains {
    // Compared without the sum, which need not fit a number.
    pub(crate) fn fits_with(self, more: Grains, depth: Grains) -> bool
        ensures { result ≡ nat_le (self.0 + more.0) depth.0 }
    {
        let room = depth.0.checked_sub(self.0);
        room.is_some_and(|room| more.0 <= room)
    }
}

impl Bucket {
    pub(crate) fn fill_at(self, moment: Moment) -> Grains
        ensures { result.0 ≡ level self moment.0 }
    {
        let gap = moment.0.saturating_sub(self.last.0);
        // A product past 64 bits empties every bucket, and so does the largest number.
        let leaked = self.limit.rate.saturating_mul(gap);
        Grains(self.fill.0.saturating_sub(leaked))
    }

    pub(crate) fn has_room(self, moment: Moment, cost: Grains) -> bool
        ensures { result ≡ nat_le (level self moment.0 + cost.0) self.limit.depth.0 }
    {
        self.fill_at(moment).fits_with(cost, self.limit.depth)
    }

    pub(crate) fn charged(self, moment: Moment, cost: Grains) -> Bucket
        requires { level self moment.0 + cost.0 ≤ self.limit.depth.0 }
        ensures { result ≡ filled self moment.0 cost.0 }
    {
        Bucket {
            fill: Grains(self.fill_at(moment).0 + cost.0),
            last: moment,
            ..self
        }
    }
}
