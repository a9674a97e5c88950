// The trait of allowance books: what a book means, and what each operation makes of that.
ghost use Rattle.std.specs.Prelude.{◌≡◌, ℕ, ◌≤◌, false, is_ok, if◌then◌else◌};
ghost use Rattle.quantities.specs.Limits.{most_grant, most_old_units};
ghost use Rattle.book.specs.Allowance.{Allowance, Kept, units, empty, fill_answer, filled, draw_answer, drawn, ended, lapsed, carried, aside, aside_answer, left as all_left};

use crate::answers::{Cleared, Drawn};
use crate::fault::BookFault;
use quantities::time::Day;

// A book of what is left of one unit: a fresh amount, which the latest fee granted, and old lots, left of earlier fees.
pub trait Book: Sized {
    // The most old lots that the book can hold, and the same number for clauses.
    const CAPACITY: usize;

    ghost CAPACITY: { ℕ };

    ghost means: { Self → Allowance };

    // Makes the fresh amount `n`; refused where a fresh amount is left or `n` is more than a fee may grant.
    fn fill(&mut self, n: u32) -> Result<(), BookFault>
        ensures answer { result ≡ fill_answer n (means self.old) }
        ensures book { means self.new ≡ (if is_ok result then filled n (means self.old) else means self.old) }
        ensures same { is_ok result ≡ false → self.new ≡ self.old };

    // Takes the smaller of `n` and all that is left: old lots first, by end, then fresh.
    fn draw(&mut self, n: u32) -> Drawn
        ensures answer { result.taken ≡ draw_answer n (means self.old) }
        ensures book { means self.new ≡ drawn n (means self.old) };

    // Removes the old lots that end at or before the day, and answers their sum.
    fn lapse(&mut self, day: Day) -> u32
        ensures answer { result ≡ units (ended day.0 (means self.old).lots) }
        ensures small { result ≤ most_old_units }
        ensures book { means self.new ≡ lapsed day.0 (means self.old) };

    // Removes all old lots and answers their sum; the fresh amount becomes the one old lot, with this end.
    fn carry(&mut self, end: Day) -> u32
        ensures answer { result ≡ units (means self.old).lots }
        ensures small { result ≤ most_old_units }
        ensures book { means self.new ≡ carried end.0 (means self.old) };

    // Empties the book.
    fn clear(&mut self) -> Cleared
        ensures answer { result ≡ record { old = units (means self.old).lots; fresh = (means self.old).fresh } }
        ensures small { (result.old ≤ most_old_units) × (result.fresh ≤ most_grant) }
        ensures book { means self.new ≡ empty };

    // Makes the fresh amount an old lot with this end, lowers each end past the cap to it, and joins lots of equal end;
    // refused where more old lots than the capacity, or more old units than a book may hold, would stand.
    fn set_aside(&mut self, end: Day, cap: Day) -> Result<(), BookFault>
        ensures answer { result ≡ aside_answer CAPACITY end.0 cap.0 (means self.old) }
        ensures book { means self.new ≡ (if is_ok result then aside end.0 cap.0 (means self.old) else means self.old) }
        ensures same { is_ok result ≡ false → self.new ≡ self.old };

    // All that is left as the book stands, which changes nothing.
    fn left(&self) -> u32
        ensures answer { result ≡ all_left (means self.now) };

    // The fresh amount after a lapse on the day, which changes nothing.
    fn fresh_after(&self, day: Day) -> u32
        ensures answer { result ≡ (lapsed day.0 (means self.now)).fresh }
        ensures small { result ≤ most_grant };

    // The old units after a lapse on the day, which changes nothing.
    fn old_after(&self, day: Day) -> u32
        ensures answer { result ≡ units (lapsed day.0 (means self.now)).lots }
        ensures small { result ≤ most_old_units };

    // What `set_aside` would answer after a lapse on the day, which changes nothing.
    fn set_aside_after(&self, day: Day, end: Day, cap: Day) -> Result<(), BookFault>
        ensures answer { result ≡ aside_answer CAPACITY end.0 cap.0 (lapsed day.0 (means self.now)) };

    ghost roomy: { 1 ≤ CAPACITY };

    ghost kept: { (b : Self) → Kept CAPACITY (means b) };
}
