// The allowance book: one meaning for every kind of book.
#![tactic(auto)]

pub mod answers;
pub mod fault;
pub mod lot;
pub mod meaning;
mod number;
pub mod theorems;
