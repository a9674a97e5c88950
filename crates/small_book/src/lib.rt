// The small book: an allowance book of plain numbers, with room for one old lot.
#![tactic(auto)]

pub mod operations;
pub mod small;
