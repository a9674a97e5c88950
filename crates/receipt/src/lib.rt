// The receipt that a call fills.
#![tactic(auto)]

pub mod cause;
pub mod receipt;
pub mod tally;
