// The text of a statement.
#![tactic(auto)]

pub mod date;
pub mod line;
