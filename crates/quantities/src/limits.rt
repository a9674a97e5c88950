// Every limit of the subject, each in one place; specs/Limits.antt names the same numbers for clauses.

// A plan's fee is 1 to this many sums.
pub const MOST_FEE: u64 = 10_000_000;

// A fee grants at most this many of a unit.
pub const MOST_GRANT: u32 = 1_000_000;

// A unit beyond the allowance, and an international message, cost at most this many sums.
pub const MOST_PRICE: u32 = 10_000;

// To enter a plan from another costs at most this many sums.
pub const MOST_ENTRY_PRICE: u64 = 10_000_000;

// An account holds at most this many sums.
pub const MOST_BALANCE: u64 = 1_000_000_000;

// A top-up is 1 to this many sums.
pub const MOST_TOP_UP: u64 = 10_000_000;

// A use is 1 to this many units.
pub const MOST_USE: u32 = 1_000_000;

// A book holds at most this many old units.
pub const MOST_OLD_UNITS: u32 = 2_000_000_000;

// The last minute that a call can be dated: 31 December 2099, 23:59.
pub const LAST_MOMENT: u32 = 52_595_999;
