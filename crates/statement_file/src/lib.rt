// The statement of an event file, from its bytes to its text.
#![tactic(auto)]

mod lines;
pub mod statement;
