// What a tariff line is: one table of plans' terms, and one of what leads from a plan to another.
ghost use Rattle.std.specs.Prelude.{◌≡◌};
ghost use Rattle.tariff.specs.Terms.{Tariff, told_terms, told_entry};

use crate::terms::{Entry, PlanCode, Terms};

pub trait Line: Sized {
    // Both tables, within the limits of the subject.
    ghost tariff: { Self → Tariff };

    // The terms of the plan of a code, where the line has one.
    fn terms(&self, code: PlanCode) -> Option<Terms>
        ensures value { told_terms result ≡ (tariff self.now).terms code.0 };

    // What it takes to come from the plan of one code to that of another, where a way leads there.
    fn entry(&self, from: PlanCode, to: PlanCode) -> Option<Entry>
        ensures value { told_entry result ≡ (tariff self.now).entry from.0 to.0 };
}
