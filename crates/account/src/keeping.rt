// Whether the books that a Restart or a switch keeps can be set aside. It reads only.
ghost use Rattle.std.specs.Prelude.{◌≡◌, [], ◌∷◌, if◌then◌else◌, Ok};
ghost use Rattle.book.specs.Allowance.{lapsed, aside_answer};
ghost use Rattle.rules.specs.DueDays.{lapse_all};
ghost use Rattle.rules.specs.Calls.{new_due};
ghost use Rattle.rules.specs.Checks.{first_refusal, check_books};
ghost use Rattle.rules.specs.Gregorian.{gregorian};
ghost use Rattle.ledger.specs.Meaning.{state_of};
ghost use Rattle.fault.specs.Faults.{outcome_of};
ghost use Rattle.account.specs.Leaving.{keep_concern};

use book::fault::BookFault;
use book::meaning::Book;
use fault::account::{Fault, UnitFault};
use ledger::dates::new_due;
use ledger::ledger::Ledger;
use quantities::time::{CallDay, Day};
use quantities::unit::{PerUnit, UnitKind};

// What a book would answer to being wiped or set aside after a lapse on the day. End and cap are two parameters, as books
// take them, and beside the flag: they count only where it is down, and are the same for all three books.
fn judge_book<B: Book>(book: &B, wiped: bool, day: Day, end: Day, cap: Day) -> Result<(), BookFault>
    ensures { result ≡ (if wiped then Ok tt else aside_answer B.Book.CAPACITY end.0 cap.0 (lapsed day.0 (B.Book.means book.now))) }
{
    if wiped {
        return Ok(());
    }
    book.set_aside_after(day, end, cap)
}

// The refusal of the first book that isn't wiped and would not be set aside after a lapse on the day.
pub(crate) fn judge_books<B: Book>(
    ledger: &Ledger<B>,
    day: CallDay,
    end: Day,
    wiped: PerUnit<bool>,
) -> Result<(), Fault>
    ensures told { outcome_of result ≡ first_refusal (check_books (keep_concern B.Book.CAPACITY end.0 (new_due gregorian day.day.0) wiped (lapse_all day.day.0 (state_of B.Book.means ledger.now)).state.books) ∷ []) }
{
    let books = &ledger.books;
    let cap = new_due(day);
    let judge = |unit: UnitKind| {
        judge_book(books.get(unit), *wiped.get(unit), day.day, end, cap).map_err(|fault| UnitFault {
            unit,
            fault,
        })
    };
    // in turn, so that the first refusal is told
    judge(UnitKind::Minutes)?;
    judge(UnitKind::Megabytes)?;
    judge(UnitKind::Messages)?;
    Ok(())
}
