// Putting old lots together, in the order of their ends and with lots of equal end joined.
ghost use Rattle.std.specs.Prelude.{◌≡◌, ◌+◌, ◌^◌, ◌<◌, ◌≤◌, ◌++◌, if◌then◌else◌, is_ok, Err, MatchResult, nat_le};
ghost use Rattle.std.specs.List.{insert, position_or_len};
ghost use Rattle.book.specs.Allowance.{units, as_lot, with_lot, gathered};
ghost use Rattle.table_book.specs.Held.{held};
ghost use Rattle.table_book.specs.Room.{most_lots, room_answer};

use crate::lots::{Lots, MOST_LOTS};
use book::fault::BookFault;
use book::lot::Lot;
use quantities::time::Day;

impl Lots {
    // The place of the first lot that doesn't end before the day, or the one behind them all.
    fn place(&self, end: Day) -> usize
        ensures value { result ≡ position_or_len (λ lot. nat_le end.0 lot.end.0) (held self.now) }
    {
        self.standing()
            .iter()
            .position(|lot| lot.end >= end)
            .unwrap_or(self.len)
    }

    // Puts `lot` before the lot at `at`.
    fn insert(&mut self, at: usize, lot: Lot)
        requires { (at ≤ self.old.len) × (self.old.len < most_lots) × (units (held self.old) + lot.amount < 2 ^ 32) }
        ensures lots { held self.new ≡ insert (held self.old) at lot }
    {
        self.lots.copy_within(at..self.len, at + 1);
        self.lots[at] = lot;
        self.len += 1;
    }

    // Puts in one lot more, in the order of the ends or joined with one of equal end, if there is room.
    fn add(&mut self, lot: Lot) -> Result<(), BookFault>
        requires { units (held self.old) + lot.amount < 2 ^ 32 }
        ensures answer { result ≡ room_answer (with_lot lot (held self.old)) }
        ensures lots { held self.new ≡ (if is_ok result then with_lot lot (held self.old) else held self.old) }
    {
        let at = self.place(lot.end);
        if let Some(other) = self.standing().get(at) {
            if other.end == lot.end {
                self.lots[at].amount += lot.amount;
                return Ok(());
            }
        }
        if self.len == MOST_LOTS {
            return Err(BookFault::TooManyLots);
        }
        self.insert(at, lot);
        Ok(())
    }

    // The lots and an amount as one lot more, with each end past the cap lowered to it, and those of equal end joined,
    // if there is room.
    pub(crate) fn aside(&self, amount: u32, end: Day, cap: Day) -> Result<Lots, BookFault>
        requires { units (held self.now) + amount < 2 ^ 32 }
        ensures lots { MatchResult result (λ next. held next ≡ gathered cap.0 (held self.now ++ as_lot amount end.0)) (λ fault. Err fault ≡ room_answer (gathered cap.0 (held self.now ++ as_lot amount end.0))) }
    {
        let mut next = Lots::none();
        for lot in self.standing() {
            next.add(lot.capped(cap))?;
        }
        if amount > 0 {
            next.add(Lot { amount, end }.capped(cap))?;
        }
        Ok(next)
    }
}
