// The run over a file that posts to a journal, one record after another, and keeps no list of what it posts.
ghost use Rattle.std.specs.Prelude.{◌≡◌, [], IfOk, Some, OnErr, OnOk};
ghost use Rattle.account.specs.Meaning.{account_of, world};
ghost use Rattle.event_file.specs.Reader.{coming, position, end};
ghost use Rattle.event_run.specs.Postings.{postings, closing, refused_file, file_postings, file_closing};
ghost use Rattle.event_run.specs.Coded.{file_outcome_of};
ghost use Rattle.event_run.specs.Journals.{Taken};
ghost use Rattle.event_run.specs.FileLaw.{LawOfFile};

use crate::journal::Journal;
use crate::opening::open_file;
use crate::post::post;
use account::account::Account;
use account::provision::Provision;
use book::meaning::Book;
use event_file::file_fault::FileFault;
use event_file::records::Records;
use tariff::line::Line;

// Posts the records that are still to come, one after another; a refused record doesn't stop it.
pub fn post_records<L: Line, B: Book, J: Journal>(
    account: &mut Account<L, B>,
    records: &mut Records<'_>,
    journal: &mut J,
)
    ensures posted { Taken J.Journal.takes journal.old (postings (world (L.Line.tariff account.old.line) B.Book.CAPACITY) (account_of B.Book.means account.old) (coming records.old)) journal.new }
    ensures account { account_of B.Book.means account.new ≡ closing (world (L.Line.tariff account.old.line) B.Book.CAPACITY) (account_of B.Book.means account.old) (coming records.old) }
    ensures line { account.new.line ≡ account.old.line }
    ensures read { coming records.new ≡ [] }
    ensures position { position records.new ≡ end records.old }
{
    // A `while let`: a `for` over a lent reader leaves unsaid where the reader stands after it (tried, stays open).
    while let Some(part) = records.next() {
        let posted = post(account, part);
        journal.post(posted);
    }
}

// Opens the account that the file names on the line, with the books, and makes the call of each record. What became of
// each is posted to the journal; a refused file or opening posts nothing.
// The clauses are near to those of `run_file`: one record for both would take both answers' shapes as parameters.
pub fn post_file<L: Line + Drop, B: Book + Drop, J: Journal>(
    file: &[u8],
    provision: Provision<L, B>,
    journal: &mut J,
) -> Result<Account<L, B>, FileFault>
    ensures refused { file_outcome_of result ≡ refused_file (world (L.Line.tariff provision.line) B.Book.CAPACITY) file.now }
    ensures posted { OnOk result (Taken J.Journal.takes journal.old (file_postings (world (L.Line.tariff provision.line) B.Book.CAPACITY) file.now) journal.new) }
    ensures account { IfOk result (λ a. Some (account_of B.Book.means a) ≡ file_closing (world (L.Line.tariff provision.line) B.Book.CAPACITY) file.now) }
    ensures line { IfOk result (λ a. a.line ≡ provision.line) }
    ensures same { OnErr result (journal.new ≡ journal.old) }
    ensures law { IfOk result (λ a. LawOfFile (world (L.Line.tariff provision.line) B.Book.CAPACITY) file.now (file_postings (world (L.Line.tariff provision.line) B.Book.CAPACITY) file.now) (account_of B.Book.means a)) }
{
    let (mut account, mut records) = open_file(file, provision)?;
    post_records(&mut account, &mut records, journal);
    Ok(account)
}
