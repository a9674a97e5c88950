// How far a balance is from a fee.
ghost use Rattle.std.specs.Prelude.{◌≡◌, pos, negsuc, ◌-ℤ◌, ◌≤ℤ◌};

use crate::money::{Balance, Fee};

// The margin: the balance less the fee, negative where the balance doesn't reach the fee.
#[derive(Clone, Copy, PartialEq, Eq, PartialOrd, Ord, Debug)]
pub struct Margin(pub i64);

impl Margin {
    pub fn between(balance: Balance, fee: Fee) -> Margin
        ensures value { result.0 ≡ pos balance.sums.0 -ℤ pos fee.sums.0 }
        ensures low { negsuc 9999999 ≤ℤ result.0 }
        ensures high { result.0 ≤ℤ pos 999999999 }
    {
        Margin(balance.sums.0 as i64 - fee.sums.0 as i64)
    }
}
