// What the receipts of a run add up to.
#![tactic(auto)]

mod adding;
pub mod life;
pub mod totals;
