// What a Restart or a switch does to the books: some are wiped, the others are kept, that is set aside.
ghost use Rattle.std.specs.Prelude.{◌≡◌, ◌^◌, if◌then◌else◌, None as none_told};
ghost use Rattle.quantities.specs.Units.{of};
ghost use Rattle.book.specs.Allowance.{left, empty, aside};
ghost use Rattle.rules.specs.Receipt.{none};
ghost use Rattle.rules.specs.Calls.{wipe_or_keep};
ghost use Rattle.receipt.specs.Columns.{tally_of, receipt_of, Below, AllBelow};
ghost use Rattle.ledger.specs.Meaning.{state_of, FollowsRule};
ghost use Rattle.receipt.specs.Wiping.{wiping};
ghost use Rattle.account.specs.Leaving.{keep_refusal, keep_concern};

use book::meaning::Book;
use ledger::ledger::Ledger;
use quantities::time::Day;
use quantities::unit::PerUnit;
use receipt::cause::Cause;
use receipt::receipt::Receipt;
use receipt::tally::Tally;

// Wipes a book, or sets it aside where judging found that it can be. End and cap stand beside the flag as in judging.
fn wipe_or_keep<K, B: Book>(book: &mut B, cause: Cause, wiped: bool, end: Day, cap: Day) -> Tally<K>
    requires { keep_refusal B.Book.CAPACITY end.0 cap.0 wiped (B.Book.means book.old) ≡ none_told }
    ensures book { B.Book.means book.new ≡ (if wiped then empty else aside end.0 cap.0 (B.Book.means book.old)) }
    ensures tally { tally_of result ≡ (if wiped then wiping cause (left (B.Book.means book.old)) else none) }
    ensures small { Below (2 ^ 34) (tally_of result) }
{
    if wiped {
        let cleared = book.clear();
        Tally::wiped(cause, u64::from(cleared.fresh) + u64::from(cleared.old))
    } else {
        let _ = book.set_aside(end, cap);
        Tally::none()
    }
}

// Unit by unit: each tally has a type of its own.
pub(crate) fn leave_books<B: Book>(
    ledger: &mut Ledger<B>,
    cause: Cause,
    wiped: PerUnit<bool>,
    end: Day,
    cap: Day,
) -> Receipt
    requires { keep_concern B.Book.CAPACITY end.0 cap.0 wiped (state_of B.Book.means ledger.old).books ≡ none_told }
    ensures does { FollowsRule B.Book.means (wipe_or_keep (wiping cause) (λ k. of k wiped) end.0 cap.0) ledger.old ledger.new result }
    ensures small { AllBelow (2 ^ 34) (receipt_of result) }
{
    let minutes = wipe_or_keep(&mut ledger.books.minutes, cause, wiped.minutes, end, cap);
    let megabytes = wipe_or_keep(
        &mut ledger.books.megabytes,
        cause,
        wiped.megabytes,
        end,
        cap,
    );
    let messages = wipe_or_keep(&mut ledger.books.messages, cause, wiped.messages, end, cap);
    Receipt::of_units(minutes, megabytes, messages)
}
