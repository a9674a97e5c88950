// Time: whole minutes and whole days since 1 January 2000, 00:00.
ghost use Rattle.std.specs.Prelude.{◌≡◌, ◌/◌, ◌<◌, ◌≤◌, MatchOption};
ghost use Rattle.quantities.specs.Limits.{last_moment, last_call_day};

use crate::limits::LAST_MOMENT;

// A day by its number: 0 is 1 January 2000.
#[derive(Clone, Copy, PartialEq, Eq, PartialOrd, Ord, Default, Debug)]
pub struct Day(pub u32);

// A minute by its number: 0 is 1 January 2000, 00:00.
#[derive(Clone, Copy, PartialEq, Eq, PartialOrd, Ord, Debug)]
pub struct Moment(pub u32);

// A day on which a call can be dated: at most 31 December 2099.
#[derive(Clone, Copy)]
pub struct CallDay {
    pub day: Day,
    ghost inside: { day.0 ≤ last_call_day },
}

impl Moment {
    // The day on which the moment lies.
    pub fn day(self) -> Day
        ensures { result ≡ record { 0 = self.0 / 1440 } }
    {
        Day(self.0 / 1440)
    }

    // The day of a moment at which a call can be dated; none past the last one. A method like `day`: `try_from` would not
    // say which of its days.
    pub fn call_day(self) -> Option<CallDay>
        ensures { MatchOption result (last_moment < self.0) (λ d. (self.0 ≤ last_moment) × (d.day.0 ≡ self.0 / 1440)) }
    {
        // by the number: `LAST_MOMENT` is one, as clauses name it
        if self.0 > LAST_MOMENT {
            return None;
        }
        Some(CallDay { day: self.day() })
    }
}
