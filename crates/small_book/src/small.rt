// What a small book holds.
ghost use Rattle.std.specs.Prelude.{◌≤◌};
ghost use Rattle.quantities.specs.Limits.{most_grant, most_old_units};

use quantities::time::Day;

// The fresh amount, and the one old lot: its amount, 0 where there is none, and its end. Not an `Option<Lot>`: each draw
// could leave a lot of 0 in it, which then would have to be taken out.
#[derive(Clone, Copy)]
pub struct Small {
    pub(crate) fresh: u32,
    pub(crate) old: u32,
    pub(crate) end: Day,
    ghost small: { fresh ≤ most_grant },
    ghost bounded: { old ≤ most_old_units },
}
