// The small book as an allowance book.
ghost use Rattle.std.specs.Prelude.{◌≡◌};
ghost use Rattle.book.specs.Allowance.{empty};
ghost use Rattle.small_book.specs.Meaning.{meaning};
ghost use Rattle.std.proofs.Common.{rules, arith};

use crate::small::Small;
use book::answers::{Cleared, Drawn};
use book::fault::BookFault;
use book::meaning::Book;
use quantities::limits::{MOST_GRANT, MOST_OLD_UNITS};
use quantities::time::Day;

impl Small {
    // An empty book.
    pub fn new() -> Small
        ensures book { meaning result ≡ empty }
    {
        Small {
            fresh: 0,
            old: 0,
            end: Day(0),
        }
    }
}

impl Default for Small {
    ghost is_default = { λ b. meaning b ≡ empty };

    fn default() -> Small {
        Small::new()
    }
}

impl Book for Small {
    const CAPACITY: usize = 1;

    ghost CAPACITY = { 1 };

    ghost means = { meaning };

    ghost roomy = { first_of (Prim.search rules, Prim.grind (arith, Self.row.coded.inj)) };

    ghost kept = { first_of (Prim.search rules, Prim.grind (arith, Self.row.coded.inj)) };

    // in each book: a default of the trait would reach no field
    fn fill(&mut self, n: u32) -> Result<(), BookFault> {
        if self.fresh != 0 {
            return Err(BookFault::NotEmpty);
        }
        if n > MOST_GRANT {
            return Err(BookFault::TooLarge);
        }
        self.fresh = n;
        Ok(())
    }

    fn draw(&mut self, n: u32) -> Drawn {
        let from_old = n.min(self.old);
        let from_fresh = (n - from_old).min(self.fresh);
        self.old -= from_old;
        self.fresh -= from_fresh;
        Drawn {
            taken: from_old + from_fresh,
        }
    }

    fn lapse(&mut self, day: Day) -> u32 {
        if day < self.end {
            return 0;
        }
        let ended = self.old;
        self.old = 0;
        ended
    }

    fn carry(&mut self, end: Day) -> u32 {
        let ended = self.old;
        self.old = self.fresh;
        self.end = end;
        self.fresh = 0;
        ended
    }

    fn clear(&mut self) -> Cleared {
        let cleared = Cleared {
            old: self.old,
            fresh: self.fresh,
        };
        self.old = 0;
        self.fresh = 0;
        cleared
    }

    fn set_aside(&mut self, end: Day, cap: Day) -> Result<(), BookFault> {
        let old_end = cap.min(self.end);
        let fresh_end = cap.min(end);
        if self.old > 0 && self.fresh > 0 && old_end != fresh_end {
            return Err(BookFault::TooManyLots);
        }
        if self.old + self.fresh > MOST_OLD_UNITS {
            return Err(BookFault::TooManyUnits);
        }
        self.end = if self.fresh > 0 { fresh_end } else { old_end };
        self.old += self.fresh;
        self.fresh = 0;
        Ok(())
    }

    fn left(&self) -> u32 {
        self.fresh + self.old
    }

    // in each book: a default of the trait would reach no field
    fn fresh_after(&self, _day: Day) -> u32 {
        self.fresh
    }

    fn old_after(&self, day: Day) -> u32 {
        if self.end > day { self.old } else { 0 }
    }

    fn set_aside_after(&self, day: Day, end: Day, cap: Day) -> Result<(), BookFault> {
        let mut next = *self;
        next.lapse(day);
        next.set_aside(end, cap)
    }
}
