// The single plans: 21, Ovoz 15, and 22, Internet 60.
ghost use Rattle.plans.specs.LawfulLines.{single_line};

use crate::plan::{CHARGE, FREE, entry, full_plan, internet_plan};
use tariff::line::Line;
use tariff::terms::{Entry, Fate, PlanCode, Terms};

// What is left at a due day ends.
const CARRIES: bool = false;

// A type of its own, and not one type over rows: the two matches are the line's tables, and rows would have to spell out
// code by code what ranges and guards say at once.
#[derive(Clone, Copy)]
pub struct SinglePlans;

impl Line for SinglePlans {
    ghost tariff = { λ l. single_line };

    fn terms(&self, code: PlanCode) -> Option<Terms> {
        match code.0 {
            21 => Some(full_plan(15, 1_500, 500, 1_500, 50, CARRIES)),
            22 => Some(internet_plan(60, 30_720, 25)),
            _ => None,
        }
    }

    fn entry(&self, from: PlanCode, to: PlanCode) -> Option<Entry> {
        match (from.0, to.0) {
            (1..=6 | 11..=16 | 22, 21) => Some(entry(CHARGE, Fate::Wiped)),
            (4..=6, 22) => Some(entry(CHARGE, Fate::Wiped)),
            (1..=3 | 11..=16, 22) => Some(entry(FREE, Fate::Wiped)),
            (21, 22) => Some(entry(FREE, Fate::Kept)),
            _ => None,
        }
    }
}
