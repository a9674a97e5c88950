// A table book and a small book that take the same steps.
ghost use Rattle.std.specs.Prelude.{◌≡◌};
ghost use Rattle.book.specs.Allowance.{empty};
ghost use Rattle.table_book.specs.Meaning.{meaning as table_meaning};
ghost use Rattle.small_book.specs.Meaning.{meaning as small_meaning};
ghost use Rattle.books_side_by_side.specs.Steps.{answered};

use crate::driver::perform;
use crate::steps::{Answer, Step};
use small_book::small::Small;
use table_book::table::Table;

// The two books, and whether they are compared.
#[derive(Drop)]
pub struct Pair {
    pub table: Table,
    pub small: Small,
    pub compared: bool,
}

// What the two books answered. One generic pair for books and answers would need a type for each side, and every clause
// on a book a step more, as `pair.books.table`.
#[derive(Clone, Copy)]
pub struct Answers {
    pub table: Answer,
    pub small: Answer,
}

impl Pair {
    // Two empty books.
    pub fn new() -> Pair
        ensures table { table_meaning result.table ≡ empty }
        ensures small { small_meaning result.small ≡ empty }
    {
        Pair {
            table: Table::new(),
            small: Small::new(),
            compared: true,
        }
    }

    // Takes the step on both books. They are compared until one refuses what the other accepts, and again from the next
    // clear on.
    pub fn take(&mut self, step: Step) -> Answers
        ensures table { result.table ≡ answered 31 step (table_meaning self.old.table) }
        ensures small { result.small ≡ answered 1 step (small_meaning self.old.small) }
        ensures alike { table_meaning self.old.table ≡ small_meaning self.old.small → result.table ≡ result.small → table_meaning self.new.table ≡ small_meaning self.new.small }
    {
        let table = perform(&mut self.table, step);
        let small = perform(&mut self.small, step);
        self.compared = match step {
            Step::Clear => true,
            _ => self.compared && table == small,
        };
        Answers { table, small }
    }
}
