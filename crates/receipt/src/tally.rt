// What a call did to one unit.
ghost use Rattle.std.specs.Prelude.{◌≡◌, ◌^◌};
ghost use Rattle.rules.specs.Receipt.{none as nothing_told, granting, used, ending, ◌⊞◌};
ghost use Rattle.receipt.specs.Columns.{tally_of, capped_tally, Below};
ghost use Rattle.receipt.specs.Wiping.{wiping};

use crate::cause::Cause;
use quantities::unit::{Count, Total};

// One column for each thing that can become of units of one kind.
#[derive(Clone, Copy)]
pub struct Tally<K> {
    // what fees granted
    pub granted: Total<K>,
    // used within the allowance, and beyond it
    pub within: Total<K>,
    pub beyond: Total<K>,
    // ended: old lots past their end, and what a paid due day did not carry
    pub ended: Total<K>,
    // late: still fresh when a fee fell due and wasn't paid
    pub late: Total<K>,
    pub wiped_by_restart: Total<K>,
    pub wiped_by_switch: Total<K>,
}

impl<K> Tally<K> {
    // All zeros.
    pub fn none() -> Self
        ensures { tally_of result ≡ nothing_told }
    {
        Tally {
            granted: Total::new(0),
            within: Total::new(0),
            beyond: Total::new(0),
            ended: Total::new(0),
            late: Total::new(0),
            wiped_by_restart: Total::new(0),
            wiped_by_switch: Total::new(0),
        }
    }

    pub fn granted(count: u32) -> Self
        ensures { tally_of result ≡ granting count }
    {
        Tally {
            granted: Total::new(u64::from(count)),
            ..Tally::none()
        }
    }

    pub fn used(within: u32, beyond: u32) -> Self
        ensures { tally_of result ≡ used within beyond }
    {
        Tally {
            within: Total::new(u64::from(within)),
            beyond: Total::new(u64::from(beyond)),
            ..Tally::none()
        }
    }

    pub fn ended(ended: u64, late: u64) -> Self
        ensures { tally_of result ≡ ending ended late }
    {
        Tally {
            ended: Total::new(ended),
            late: Total::new(late),
            ..Tally::none()
        }
    }

    pub fn wiped(cause: Cause, count: u64) -> Self
        ensures { tally_of result ≡ wiping cause count }
    {
        let count = Total::new(count);
        match cause {
            Cause::Restart => Tally {
                wiped_by_restart: count,
                ..Tally::none()
            },
            Cause::Switch => Tally {
                wiped_by_switch: count,
                ..Tally::none()
            },
        }
    }

    // Column by column; exact wherever the sums fit, as those of an account always do.
    pub fn plus(self, other: Tally<K>) -> Self
        ensures value { tally_of result ≡ capped_tally (tally_of self ⊞ tally_of other) }
        ensures exact { Below (2 ^ 63) (tally_of self) → Below (2 ^ 63) (tally_of other) → tally_of result ≡ tally_of self ⊞ tally_of other }
    {
        Tally {
            granted: self.granted.plus(other.granted),
            within: self.within.plus(other.within),
            beyond: self.beyond.plus(other.beyond),
            ended: self.ended.plus(other.ended),
            late: self.late.plus(other.late),
            wiped_by_restart: self.wiped_by_restart.plus(other.wiped_by_restart),
            wiped_by_switch: self.wiped_by_switch.plus(other.wiped_by_switch),
        }
    }
}
