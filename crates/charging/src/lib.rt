// The engine for hosts in C: an event file's totals and postings as rows of numbers, in memory that the host lends.
#![tactic(auto)]

mod answer;
mod choice;
pub mod export;
pub mod host_fault;
mod life;
mod place;
mod posting;
mod postings;
mod row;
mod rows;
