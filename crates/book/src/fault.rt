// Why a book refuses.
ghost use Rattle.std.specs.Prelude.{Some};

use std::fmt;

#[derive(Clone, Copy, PartialEq, Eq, Debug)]
pub enum BookFault {
    // a fill while a fresh amount is left
    NotEmpty,
    // a fill of more than a fee may grant
    TooLarge,
    // more old lots than the book has room for
    TooManyLots,
    // more old units than a book may hold
    TooManyUnits,
}

// In the words of the trade, without the number.
impl fmt::Display for BookFault {
    ghost use Rattle.book.specs.Fault.{reason};

    ghost output = { λ f. Some (reason f) };

    fn fmt<W: fmt::Write>(&self, f: &mut fmt::Formatter<W>) -> fmt::Result {
        match self {
            BookFault::NotEmpty => write!(f, "not-empty"),
            BookFault::TooLarge => write!(f, "too-large"),
            BookFault::TooManyLots => write!(f, "too-many-lots"),
            BookFault::TooManyUnits => write!(f, "too-many-units"),
        }
    }
}
