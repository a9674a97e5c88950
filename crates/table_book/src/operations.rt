// The table book as an allowance book.
ghost use Rattle.std.specs.Prelude.{◌≡◌};
ghost use Rattle.book.specs.Allowance.{empty};
ghost use Rattle.table_book.specs.Meaning.{meaning};
ghost use Rattle.table_book.specs.Room.{most_lots};
ghost use Rattle.std.proofs.Common.{rules, arith};

use crate::lots::{Lots, MOST_LOTS};
use crate::table::Table;
use book::answers::{Cleared, Drawn};
use book::fault::BookFault;
use book::meaning::Book;
use quantities::limits::{MOST_GRANT, MOST_OLD_UNITS};
use quantities::time::Day;

impl Table {
    // An empty book.
    pub fn new() -> Table
        ensures book { meaning result ≡ empty }
    {
        Table {
            old: Lots::none(),
            fresh: 0,
        }
    }
}

impl Default for Table {
    ghost is_default = { λ b. meaning b ≡ empty };

    fn default() -> Table {
        Table::new()
    }
}

impl Book for Table {
    const CAPACITY: usize = MOST_LOTS;

    ghost CAPACITY = { most_lots };

    ghost means = { meaning };

    ghost roomy = { first_of (Prim.search rules, Prim.grind (arith, Self.row.coded.inj)) };

    ghost kept = { first_of (Prim.search rules, Prim.grind (arith, Self.row.coded.inj)) };

    // in each book: a default of the trait would reach no field
    fn fill(&mut self, n: u32) -> Result<(), BookFault> {
        if self.fresh != 0 {
            return Err(BookFault::NotEmpty);
        }
        if n > MOST_GRANT {
            return Err(BookFault::TooLarge);
        }
        self.fresh = n;
        Ok(())
    }

    fn draw(&mut self, n: u32) -> Drawn {
        let from_old = self.old.draw(n);
        let from_fresh = (n - from_old).min(self.fresh);
        self.fresh -= from_fresh;
        Drawn {
            taken: from_old + from_fresh,
        }
    }

    fn lapse(&mut self, day: Day) -> u32 {
        self.old.lapse(day)
    }

    fn carry(&mut self, end: Day) -> u32 {
        let ended = self.old.sum();
        self.old = Lots::of(self.fresh, end);
        self.fresh = 0;
        ended
    }

    fn clear(&mut self) -> Cleared {
        let cleared = Cleared {
            old: self.old.sum(),
            fresh: self.fresh,
        };
        self.old = Lots::none();
        self.fresh = 0;
        cleared
    }

    fn set_aside(&mut self, end: Day, cap: Day) -> Result<(), BookFault> {
        let next = self.old.aside(self.fresh, end, cap)?;
        if next.sum() > MOST_OLD_UNITS {
            return Err(BookFault::TooManyUnits);
        }
        self.old = next;
        self.fresh = 0;
        Ok(())
    }

    fn left(&self) -> u32 {
        self.fresh + self.old.sum()
    }

    // in each book: a default of the trait would reach no field
    fn fresh_after(&self, _day: Day) -> u32 {
        self.fresh
    }

    fn old_after(&self, day: Day) -> u32 {
        self.old.sum() - self.old.ended(day)
    }

    fn set_aside_after(&self, day: Day, end: Day, cap: Day) -> Result<(), BookFault> {
        let mut next = Table {
            old: self.old.lasting(day),
            fresh: self.fresh,
        };
        next.set_aside(end, cap)
    }
}
