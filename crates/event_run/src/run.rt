// The run over a whole file.
ghost use Rattle.std.specs.Prelude.{◌≡◌, map, IfOk, Some};
ghost use Rattle.account.specs.Meaning.{account_of, world};
ghost use Rattle.event_run.specs.Postings.{refused_file, file_postings, file_closing};
ghost use Rattle.event_run.specs.Coded.{posting_of, file_refusal_told};
ghost use Rattle.event_run.specs.FileLaw.{LawOfFile};

use crate::journal_run::post_records;
use crate::listing::Listing;
use crate::opening::open_file;
use crate::posted::Posted;
use crate::stopped::Stopped;
use account::account::Account;
use account::provision::Provision;
use book::meaning::Book;
use std::alloc::Global;
use tariff::line::Line;

// The account at the end of a file, and what was posted of each record.
#[derive(Drop)]
pub struct Run<L, B> {
    pub account: Account<L, B>,
    pub posted: Vec<Posted>,
}

// Opens the account that the file names on the line, with the books, and makes the call of each record. Beside `post_file`,
// since a list can want memory, and a journal has no such answer.
pub fn run_file<L: Line + Drop, B: Book + Drop>(
    heap: Global,
    file: &[u8],
    provision: Provision<L, B>,
) -> Result<Run<L, B>, Stopped>
    ensures refused { file_refusal_told result ≡ refused_file (world (L.Line.tariff provision.line) B.Book.CAPACITY) file.now }
    ensures posted { IfOk result (λ x. map posting_of x.posted.items ≡ file_postings (world (L.Line.tariff provision.line) B.Book.CAPACITY) file.now) }
    ensures account { IfOk result (λ x. Some (account_of B.Book.means x.account) ≡ file_closing (world (L.Line.tariff provision.line) B.Book.CAPACITY) file.now) }
    ensures line { IfOk result (λ x. x.account.line ≡ provision.line) }
    ensures law { IfOk result (λ x. LawOfFile (world (L.Line.tariff provision.line) B.Book.CAPACITY) file.now (map posting_of x.posted.items) (account_of B.Book.means x.account)) }
{
    let (mut account, mut records) = open_file(file, provision)?;
    let list = Vec::with_capacity(heap, records.len())?;
    let mut listing = Listing { list };
    post_records(&mut account, &mut records, &mut listing);
    Ok(Run {
        account,
        posted: listing.list,
    })
}
