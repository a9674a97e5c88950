// Tariff lines: the terms of plans, and what leads from one plan to another.
#![tactic(auto)]

pub mod both;
pub mod line;
pub mod terms;
