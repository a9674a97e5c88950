// What a table book holds.
ghost use Rattle.std.specs.Prelude.{◌≡◌, ◌≤◌, true};
ghost use Rattle.quantities.specs.Limits.{most_grant, most_old_units};
ghost use Rattle.book.specs.Allowance.{units, rising};
ghost use Rattle.table_book.specs.Held.{held};

use crate::lots::Lots;

// The old lots, in the order of their ends, and the fresh amount.
#[derive(Clone, Copy)]
pub struct Table {
    pub(crate) old: Lots,
    pub(crate) fresh: u32,
    ghost ordered: { rising 0 (held old) ≡ true },
    ghost bounded: { units (held old) ≤ most_old_units },
    ghost small: { fresh ≤ most_grant },
}
