// Drawing on old lots, and their end.
ghost use Rattle.std.specs.Prelude.{◌≡◌, ◌+◌, ◌^◌, ◌<◌, ◌≤◌, min, true, [], length, take, drop};
ghost use Rattle.book.specs.Allowance.{units, rising, as_lot, undrawn, ended, lasting};
ghost use Rattle.table_book.specs.Held.{held};

use crate::lots::{Lots, MOST_LOTS};
use book::lot::Lot;
use quantities::time::Day;

impl Lots {
    // No lots.
    pub(crate) fn none() -> Lots
        ensures lots { held result ≡ [] }
    {
        Lots::of(0, Day(0))
    }

    // One lot, or none where the amount is 0.
    pub(crate) fn of(amount: u32, end: Day) -> Lots
        ensures lots { held result ≡ as_lot amount end.0 }
    {
        Lots {
            lots: [Lot { amount, end }; MOST_LOTS],
            len: if amount == 0 { 0 } else { 1 },
        }
    }

    // The lots that stand.
    pub(crate) fn standing(&self) -> &[Lot]
        ensures { result.now ≡ held self.now }
    {
        &self.lots[..self.len]
    }

    // The sum of the lots.
    pub(crate) fn sum(&self) -> u32
        ensures value { result ≡ units (held self.now) }
    {
        self.standing().iter().map(|lot| lot.amount).sum()
    }

    // The sum of the lots that end at or before the day.
    pub(crate) fn ended(&self, day: Day) -> u32
        ensures value { result ≡ units (ended day.0 (held self.now)) }
        ensures parts { result + units (lasting day.0 (held self.now)) ≡ units (held self.now) }
    {
        self.standing()
            .iter()
            .filter(|lot| lot.ended_by(day))
            .map(|lot| lot.amount)
            .sum()
    }

    // The lots that last past the day.
    pub(crate) fn lasting(&self, day: Day) -> Lots
        ensures lots { held result ≡ lasting day.0 (held self.now) }
        ensures fewer { units (held result) ≤ units (held self.now) }
        ensures ordered { rising 0 (held self.now) ≡ true → rising 0 (held result) ≡ true }
    {
        let mut lots = *self;
        lots.lapse(day);
        lots
    }

    // Removes the first `gone` lots.
    fn forget(&mut self, gone: usize)
        requires { gone ≤ self.old.len }
        ensures lots { held self.new ≡ drop gone (held self.old) }
    {
        self.lots.copy_within(gone..self.len, 0);
        self.len -= gone;
    }

    // Takes the smaller of `n` and all that is left, by end, and answers it.
    pub(crate) fn draw(&mut self, n: u32) -> u32
        ensures answer { result ≡ min n (units (held self.old)) }
        ensures lots { held self.new ≡ undrawn n (held self.old) }
    {
        let mut left = n;
        let mut gone = 0;
        // by index, since a slice of an array beside ghost fields can't be lent to be written
        while gone < self.len {
            left -= self.lots[gone].lower(left);
            if self.lots[gone].amount > 0 {
                break;
            }
            gone += 1;
        }
        // all at once, so that the lots behind them move only once
        self.forget(gone);
        n - left
    }

    // Removes the lots that end at or before the day, and answers their sum.
    pub(crate) fn lapse(&mut self, day: Day) -> u32
        ensures answer { result ≡ units (ended day.0 (held self.old)) }
        ensures lots { held self.new ≡ lasting day.0 (held self.old) }
        ensures parts { result + units (held self.new) ≡ units (held self.old) }
        ensures ordered { rising 0 (held self.old) ≡ true → rising 0 (held self.new) ≡ true }
    {
        let (stay, ended) = keep_lasting(&mut self.lots, self.len, day);
        self.len = stay;
        ended
    }
}

// Moves those of the first `len` lots that last past the day to the front, in one walk, and answers how many they are and the
// sum of the others. On a slice, since a lot stands twice on the way, when the units of `Lots` may be too many to sum.
fn keep_lasting(lots: &mut [Lot], len: usize, day: Day) -> (usize, u32)
    requires { (len ≤ length lots.old) × (units (take len lots.old) < 2 ^ 32) }
    ensures fewer { result.0 ≤ len }
    ensures long { length lots.new ≡ length lots.old }
    ensures front { take result.0 lots.new ≡ lasting day.0 (take len lots.old) }
    ensures sum { result.1 ≡ units (ended day.0 (take len lots.old)) }
{
    let mut stay = 0;
    let mut sum = 0;
    for i in 0..len {
        let lot = lots[i];
        if lot.ended_by(day) {
            sum += lot.amount;
            continue;
        }
        lots[stay] = lot;
        stay += 1;
    }
    (stay, sum)
}
