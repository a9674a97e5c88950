// The line Sof: plans 11 to 16.
ghost use Rattle.plans.specs.LawfulLines.{sof};

use crate::plan::{CHARGE, FREE, UNLIMITED, entry, full_plan};
use tariff::line::Line;
use tariff::terms::{Entry, Fate, PlanCode, Terms};

// In each plan of the line, what is left at a paid due day is carried.
const CARRIES: bool = true;

// A type of its own, and not one type over rows: the two matches are the line's tables, and rows would have to spell out
// code by code what ranges and guards say at once.
#[derive(Clone, Copy)]
pub struct Sof;

impl Line for Sof {
    ghost tariff = { λ l. sof };

    fn terms(&self, code: PlanCode) -> Option<Terms> {
        match code.0 {
            11 => Some(full_plan(18, 1_200, 3_072, 500, 50, CARRIES)),
            12 => Some(full_plan(30, 3_000, 7_168, 1_000, 50, CARRIES)),
            13 => Some(full_plan(40, UNLIMITED, 10_240, 1_500, 25, CARRIES)),
            14 => Some(full_plan(50, UNLIMITED, 13_312, 2_500, 25, CARRIES)),
            15 => Some(full_plan(70, UNLIMITED, 22_528, 4_000, 25, CARRIES)),
            16 => Some(full_plan(100, UNLIMITED, 35_840, 5_000, 25, CARRIES)),
            _ => None,
        }
    }

    fn entry(&self, from: PlanCode, to: PlanCode) -> Option<Entry> {
        match (from.0, to.0) {
            (a @ 11..=16, b @ 11..=16) if a < b => Some(entry(FREE, Fate::Kept)),
            (a @ 11..=16, b @ 11..=16) if a > b => Some(entry(CHARGE, Fate::Wiped)),
            (21, 11..=16) => Some(entry(FREE, Fate::Kept)),
            (22, 11..=14) => Some(entry(CHARGE, Fate::Wiped)),
            (22, 15..=16) => Some(entry(FREE, Fate::Kept)),
            _ => None,
        }
    }
}
