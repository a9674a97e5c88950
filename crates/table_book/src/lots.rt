// The old lots of a table book, in the front of an array.
ghost use Rattle.std.specs.Prelude.{◌≡◌, ◌^◌, ◌<◌, ◌≤◌, length, take};
ghost use Rattle.book.specs.Allowance.{units};
ghost use Rattle.table_book.specs.Room.{most_lots};

use book::lot::Lot;

// The most old lots that a table book holds.
pub(crate) const MOST_LOTS: usize = 31;

// The first `len` of the lots stand, and few enough units that a sum of them fits. An array with its length beside it, since
// a vector of fixed room is not `Copy`, and a table book is.
#[derive(Clone, Copy)]
pub(crate) struct Lots {
    pub(crate) lots: [Lot; MOST_LOTS],
    pub(crate) len: usize,
    ghost whole: { length lots ≡ most_lots },
    ghost few: { len ≤ most_lots },
    ghost countable: { units (take len lots) < 2 ^ 32 },
}
