// Refusals: their cases, numbers and layers.
#![tactic(auto)]

pub mod account;
