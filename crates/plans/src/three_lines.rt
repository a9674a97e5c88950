// The three lines as one line.
ghost use Rattle.std.specs.Prelude.{◌≡◌};
ghost use Rattle.tariff.specs.Terms.{told_terms, told_entry};
ghost use Rattle.plans.specs.ThreeLines.{all_terms, all_entry, ThreeLinesLawful, EntriesOfNote};

use crate::doimiy::Doimiy;
use crate::single_plans::SinglePlans;
use crate::sof::Sof;
use tariff::both::Both;
use tariff::line::Line;
use tariff::terms::{Entry, PlanCode, Terms};

pub type ThreeLines = Both<Doimiy, Both<Sof, SinglePlans>>;

// A value of the type has no choice left in it: what it means is said of the two questions below, which ask it.
pub fn three_lines() -> ThreeLines
    ensures lawful { ThreeLinesLawful }
    ensures examples { EntriesOfNote }
{
    Both {
        first: Doimiy,
        second: Both {
            first: Sof,
            second: SinglePlans,
        },
    }
}

// The terms of a plan of any of the three lines.
pub fn terms_of_any(code: PlanCode) -> Option<Terms>
    ensures value { told_terms result ≡ all_terms code.0 }
{
    three_lines().terms(code)
}

// What leads from any plan of the three lines to any other.
pub fn entry_of_any(from: PlanCode, to: PlanCode) -> Option<Entry>
    ensures value { told_entry result ≡ all_entry from.0 to.0 }
{
    three_lines().entry(from, to)
}
