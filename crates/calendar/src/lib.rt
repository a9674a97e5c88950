// The Gregorian calendar of the years 2000 to 2100.
#![tactic(auto)]

pub mod anchor;
pub mod date;
pub mod days;
pub mod laws;
mod month;
mod table;
