// How steps and the sides of a pair are printed.
ghost use Rattle.std.specs.Prelude.{Some};
ghost use Rattle.books_side_by_side.specs.Shown.{step_text, told_text, answer_text, look_text, side_text};

use crate::steps::{Answer, Look, Side, Step, Told};
use std::fmt;

// Days by their numbers: a `Display` of a day would show its date.
impl fmt::Display for Step {
    ghost output = { λ s. Some (step_text s) };

    fn fmt<W: fmt::Write>(&self, f: &mut fmt::Formatter<W>) -> fmt::Result {
        match self {
            Step::Fill(n) => write!(f, "fill {n}"),
            Step::Draw(n) => write!(f, "draw {n}"),
            Step::Lapse(day) => write!(f, "lapse {}", day.0),
            Step::Carry(end) => write!(f, "carry {}", end.0),
            Step::Clear => write!(f, "clear"),
            Step::SetAside(end, cap) => write!(f, "set-aside {} {}", end.0, cap.0),
        }
    }
}

impl fmt::Display for Told {
    ghost output = { λ t. Some (told_text t) };

    fn fmt<W: fmt::Write>(&self, f: &mut fmt::Formatter<W>) -> fmt::Result {
        match self {
            Told::Accepted => write!(f, "ok"),
            Told::Units(n) => write!(f, "{n}"),
            Told::Emptied(cleared) => write!(f, "{} {}", cleared.old, cleared.fresh),
        }
    }
}

// An answer, shown as what is told, or as the number and the reason of a refusal.
#[derive(Clone, Copy)]
struct WrittenAnswer {
    answer: Answer,
}

impl fmt::Display for WrittenAnswer {
    ghost output = { λ w. Some (answer_text w.answer) };

    fn fmt<W: fmt::Write>(&self, f: &mut fmt::Formatter<W>) -> fmt::Result {
        match self.answer {
            Ok(told) => write!(f, "{told}"),
            Err(fault) => write!(f, "refused {} {fault}", fault.number()),
        }
    }
}

impl fmt::Display for Look {
    ghost output = { λ l. Some (look_text l) };

    fn fmt<W: fmt::Write>(&self, f: &mut fmt::Formatter<W>) -> fmt::Result {
        write!(
            f,
            "fresh {} old {} {} {}",
            self.fresh, self.old, self.old_later, self.old_last
        )
    }
}

impl fmt::Display for Side {
    ghost output = { λ s. Some (side_text s) };

    fn fmt<W: fmt::Write>(&self, f: &mut fmt::Formatter<W>) -> fmt::Result {
        let answer = WrittenAnswer {
            answer: self.answer,
        };
        let aside = WrittenAnswer { answer: self.aside };
        write!(f, "{answer} {} aside {aside}", self.look)
    }
}
