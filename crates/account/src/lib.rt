// An account: opened on a plan, changed by calls, asked by questions.
#![tactic(auto)]

pub mod account;
pub mod act;
pub mod calls;
mod judge;
mod keeping;
mod leaving;
pub mod opening;
mod perform;
pub mod provision;
pub mod questions;
pub mod refused;
mod wiping;
