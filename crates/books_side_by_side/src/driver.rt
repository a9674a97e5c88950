// The driver: one step on any book, and the questions to any book.
ghost use Rattle.std.specs.Prelude.{◌≡◌};
ghost use Rattle.books_side_by_side.specs.Steps.{answered, performed, seen, asked};

use crate::steps::{Answer, Look, Side, Step, Told};
use book::meaning::Book;
use quantities::time::Day;

// The days on which a book is asked, and the end and the cap that set aside is asked with.
const FIRST: Day = Day(0);

const LATER: Day = Day(44);

const LAST: Day = Day(110);

const END: Day = Day(45);

const CAP: Day = Day(90);

pub fn perform<B: Book>(book: &mut B, step: Step) -> Answer
    ensures answer { result ≡ answered B.Book.CAPACITY step (B.Book.means book.old) }
    ensures book { B.Book.means book.new ≡ performed B.Book.CAPACITY step (B.Book.means book.old) }
{
    Ok(match step {
        Step::Fill(n) => {
            book.fill(n)?;
            Told::Accepted
        }
        Step::Draw(n) => Told::Units(book.draw(n).taken),
        Step::Lapse(day) => Told::Units(book.lapse(day)),
        Step::Carry(end) => Told::Units(book.carry(end)),
        Step::Clear => Told::Emptied(book.clear()),
        Step::SetAside(end, cap) => {
            book.set_aside(end, cap)?;
            Told::Accepted
        }
    })
}

pub fn look<B: Book>(book: &B) -> Look
    ensures value { result ≡ seen (B.Book.means book.now) }
{
    Look {
        fresh: book.fresh_after(LATER),
        old: book.old_after(FIRST),
        old_later: book.old_after(LATER),
        old_last: book.old_after(LAST),
    }
}

// What set aside would answer after a lapse.
pub fn ask<B: Book>(book: &B) -> Answer
    ensures value { result ≡ asked B.Book.CAPACITY (B.Book.means book.now) }
{
    book.set_aside_after(LATER, END, CAP)?;
    Ok(Told::Accepted)
}

// The book's side after a step that it answered so.
pub fn side<B: Book>(answer: Answer, book: &B) -> Side
    ensures answer { result.answer ≡ answer }
    ensures look { result.look ≡ seen (B.Book.means book.now) }
    ensures aside { result.aside ≡ asked B.Book.CAPACITY (B.Book.means book.now) }
{
    Side {
        answer,
        look: look(book),
        aside: ask(book),
    }
}
