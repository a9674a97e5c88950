// What the engine counts: money, the three units, prices and time, each a type of its own.
#![tactic(auto)]

pub mod limits;
pub mod margin;
pub mod money;
pub mod price;
pub mod time;
pub mod unit;
