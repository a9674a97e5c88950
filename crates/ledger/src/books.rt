// What the rules do to the book of one unit, and the tally of it. Callers name the three units in turn: a tally's type says
// its unit, so that no closure and no loop serves all three.
ghost use Rattle.std.specs.Prelude.{◌≡◌, ◌^◌};
ghost use Rattle.book.specs.Allowance.{units, empty, ended, lapsed};
ghost use Rattle.rules.specs.Receipt.{granting, ending};
ghost use Rattle.rules.specs.DueDays.{refilled, granted, closed, closing};
ghost use Rattle.receipt.specs.Columns.{tally_of, Below};

use book::meaning::Book;
use quantities::time::Day;
use quantities::unit::Count;
use receipt::tally::Tally;

// Fills the book with what a fee grants; a book that refused would tell no grant.
pub(crate) fn fill_book<K, B: Book>(book: &mut B, amount: Count<K>) -> Tally<K>
    ensures book { B.Book.means book.new ≡ refilled amount.number (B.Book.means book.old) }
    ensures tally { tally_of result ≡ granting (granted amount.number (B.Book.means book.old)) }
    ensures small { Below (2 ^ 34) (tally_of result) }
{
    match book.fill(amount.number) {
        Ok(()) => Tally::granted(amount.number),
        Err(_) => Tally::none(),
    }
}

// At a paid due day: the book carries to the next due day, or is cleared as ended. The end counts only where it carries; an
// `Option` of both would be put together by the caller and taken apart here.
pub(crate) fn close_book<K, B: Book>(book: &mut B, carries: bool, end: Day) -> Tally<K>
    ensures book { B.Book.means book.new ≡ closed carries end.0 (B.Book.means book.old) }
    ensures tally { tally_of result ≡ closing carries (B.Book.means book.old) }
    ensures small { Below (2 ^ 34) (tally_of result) }
{
    if carries {
        let old = book.carry(end);
        Tally::ended(u64::from(old), 0)
    } else {
        let cleared = book.clear();
        Tally::ended(u64::from(cleared.fresh) + u64::from(cleared.old), 0)
    }
}

// At an unpaid due day: old lots end, and the fresh amount is late.
pub(crate) fn forfeit_book<K, B: Book>(book: &mut B) -> Tally<K>
    ensures book { B.Book.means book.new ≡ empty }
    ensures tally { tally_of result ≡ ending (units (B.Book.means book.old).lots) (B.Book.means book.old).fresh }
    ensures small { Below (2 ^ 34) (tally_of result) }
{
    let cleared = book.clear();
    Tally::ended(u64::from(cleared.old), u64::from(cleared.fresh))
}

// Old lots that have come to their end by the day are dropped.
pub(crate) fn lapse_book<K, B: Book>(book: &mut B, day: Day) -> Tally<K>
    ensures book { B.Book.means book.new ≡ lapsed day.0 (B.Book.means book.old) }
    ensures tally { tally_of result ≡ ending (units (ended day.0 (B.Book.means book.old).lots)) 0 }
    ensures small { Below (2 ^ 34) (tally_of result) }
{
    let old = book.lapse(day);
    Tally::ended(u64::from(old), 0)
}
