// The ledger of an account: the fee, due days, and bringing up to a day.
#![tactic(auto)]

mod books;
pub mod bring_up;
pub mod dates;
mod due;
pub mod fee;
pub mod ledger;
