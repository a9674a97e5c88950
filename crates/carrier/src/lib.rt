// What a carrier runs: the three tariff lines, and books of one kind for each account.
#![tactic(auto)]

pub mod books;
