// The three tariff lines that are to be had: Doimiy, Sof and the single plans.
#![tactic(auto)]

pub mod doimiy;
mod plan;
pub mod single_plans;
pub mod sof;
pub mod three_lines;
