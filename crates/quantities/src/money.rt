// Money: whole sums (UZS), and the two sums that have limits of their own.
ghost use Rattle.std.specs.Prelude.{◌≡◌, ◌+◌, ◌-◌, ◌^◌, ◌≤◌, min, Some, decimal, nat_le};
ghost use Rattle.quantities.specs.Limits.{most_fee, most_balance};

use std::fmt;

// Not an `Amount` of money: sums alone are put in order, and every clause counts in them.
#[derive(Clone, Copy, PartialEq, Eq, PartialOrd, Ord, Debug)]
pub struct Sums(pub u64);

// What a plan costs a month: 1 to 10,000,000 sums. `Fee` and `Balance` stay two types: one with const limits would have
// as many lines, and a parameter more in every clause that names a fee or a balance.
#[derive(Clone, Copy)]
pub struct Fee {
    pub sums: Sums,
    ghost least: { 1 ≤ sums.0 },
    ghost most: { sums.0 ≤ most_fee },
}

// What an account holds: at most 1,000,000,000 sums.
#[derive(Clone, Copy)]
pub struct Balance {
    pub sums: Sums,
    ghost most: { sums.0 ≤ most_balance },
}

impl Balance {
    // Whether a charge can be taken from it.
    pub fn covers(self, charge: Sums) -> bool
        ensures { result ≡ nat_le charge.0 self.sums.0 }
    {
        charge <= self.sums
    }

    // What is left after a charge, which is no more than the balance wherever the rules let it be taken; else nothing.
    pub fn less(self, charge: Sums) -> Balance
        ensures { result.sums.0 ≡ self.sums.0 - charge.0 }
    {
        Balance {
            sums: Sums(self.sums.0.saturating_sub(charge.0)),
        }
    }
}

impl Sums {
    // The sum of two, or the largest number that sums can be, whichever is less.
    pub fn plus(self, other: Sums) -> Sums
        ensures { result.0 ≡ min (self.0 + other.0) (2 ^ 64 - 1) }
    {
        Sums(self.0.saturating_add(other.0))
    }
}

// The number alone, without the currency's name.
impl fmt::Display for Sums {
    ghost output = { λ s. Some (decimal s.0) };

    fn fmt<W: fmt::Write>(&self, f: &mut fmt::Formatter<W>) -> fmt::Result {
        write!(f, "{}", self.0)
    }
}
