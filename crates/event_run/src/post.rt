// The call of one record.
ghost use Rattle.std.specs.Prelude.{◌≡◌};
ghost use Rattle.account.specs.Meaning.{account_of, world};
ghost use Rattle.event_file.specs.Reader.{placed};
ghost use Rattle.event_run.specs.Postings.{answer_at, posting};
ghost use Rattle.event_run.specs.Coded.{posting_of};

use crate::posted::Posted;
use account::account::Account;
use book::meaning::Book;
use event_file::file_fault::{FileFault, PlacedFault};
use event_file::record::event_of;
use event_file::records::Part;
use receipt::receipt::Receipt;
use tariff::line::Line;

// Posts a record: a wrong one makes no call.
pub(crate) fn post<L: Line, B: Book>(account: &mut Account<L, B>, part: Part<'_>) -> Posted
    ensures posted { posting_of result ≡ posting (placed part.entry) (answer_at (world (L.Line.tariff account.old.line) B.Book.CAPACITY) (account_of B.Book.means account.old) (placed part.entry)) }
    ensures account { account_of B.Book.means account.new ≡ (answer_at (world (L.Line.tariff account.old.line) B.Book.CAPACITY) (account_of B.Book.means account.old) (placed part.entry)).account }
    ensures line { account.new.line ≡ account.old.line }
{
    let place = part.place;
    let mut receipt = Receipt::nothing();
    // a match, since only a right record makes a call
    let outcome = match event_of(part.bytes) {
        None => Err(FileFault::WrongRecord(place)),
        Some(event) => account
            .act(event, &mut receipt)
            .map_err(|fault| FileFault::from(PlacedFault { fault, place })),
    };
    Posted {
        place,
        outcome,
        receipt,
        balance: account.balance(),
    }
}
