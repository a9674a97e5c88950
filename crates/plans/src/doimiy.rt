// The line Doimiy: plans 1 to 6.
ghost use Rattle.plans.specs.LawfulLines.{doimiy};

use crate::plan::{CHARGE, FREE, UNLIMITED, entry, full_plan};
use tariff::line::Line;
use tariff::terms::{Entry, Fate, PlanCode, Terms};

// In each plan of the line, what is left at a paid due day is carried.
const CARRIES: bool = true;

// A type of its own, and not one type over rows: the two matches are the line's tables, and rows would have to spell out
// code by code what ranges and guards say at once.
#[derive(Clone, Copy)]
pub struct Doimiy;

impl Line for Doimiy {
    ghost tariff = { λ l. doimiy };

    fn terms(&self, code: PlanCode) -> Option<Terms> {
        match code.0 {
            1 => Some(full_plan(20, UNLIMITED, 5_120, 500, 50, CARRIES)),
            2 => Some(full_plan(35, UNLIMITED, 10_240, 1_000, 50, CARRIES)),
            3 => Some(full_plan(50, UNLIMITED, 20_480, 1_500, 25, CARRIES)),
            4 => Some(full_plan(70, UNLIMITED, 35_840, 2_000, 25, CARRIES)),
            5 => Some(full_plan(100, UNLIMITED, 51_200, 2_500, 25, CARRIES)),
            6 => Some(full_plan(150, UNLIMITED, 204_800, 3_000, 25, CARRIES)),
            _ => None,
        }
    }

    fn entry(&self, from: PlanCode, to: PlanCode) -> Option<Entry> {
        match (from.0, to.0) {
            (a @ 1..=6, b @ 1..=6) if a < b => Some(entry(FREE, Fate::Kept)),
            (a @ 1..=6, b @ 1..=6) if a > b => Some(entry(CHARGE, Fate::Wiped)),
            (11..=16 | 21, 1..=6) => Some(entry(FREE, Fate::Wiped)),
            (22, 1..=3) => Some(entry(CHARGE, Fate::Wiped)),
            (22, 4..=6) => Some(entry(FREE, Fate::Wiped)),
            _ => None,
        }
    }
}
