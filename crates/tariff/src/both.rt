// Two lines together: the first that has terms for a code answers, and entry goes to the line that answers for the target.
ghost use Rattle.tariff.specs.LawfulTogether.{joined};

use crate::line::Line;
use crate::terms::{Entry, PlanCode, Terms};

#[derive(Clone, Copy, Drop)]
pub struct Both<X, Y> {
    pub first: X,
    pub second: Y,
}

impl<X: Line, Y: Line> Line for Both<X, Y> {
    ghost tariff = { λ l. joined (X.Line.tariff l.first) (Y.Line.tariff l.second) };

    fn terms(&self, code: PlanCode) -> Option<Terms> {
        self.first.terms(code).or_else(|| self.second.terms(code))
    }

    fn entry(&self, from: PlanCode, to: PlanCode) -> Option<Entry> {
        if self.first.terms(to).is_some() {
            self.first.entry(from, to)
        } else {
            self.second.entry(from, to)
        }
    }
}
