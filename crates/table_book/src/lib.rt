// The table book: an allowance book with room for 31 old lots.
#![tactic(auto)]

mod drawing;
mod gathering;
mod lots;
pub mod operations;
pub mod table;
