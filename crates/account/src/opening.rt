// Opening an account.
ghost use Rattle.std.specs.Prelude.{◌≡◌};
ghost use Rattle.rules.specs.Runs.{opening, opening_refusal};
ghost use Rattle.account.specs.Meaning.{world};
ghost use Rattle.account.specs.Opening.{refusal_told, account_told, Handed};

use crate::account::Account;
use crate::provision::Provision;
use crate::refused::RefusedOpening;
use book::meaning::Book;
use fault::account::Fault;
use ledger::ledger::Ledger;
use quantities::money::{Balance, Sums};
use quantities::time::Moment;
use rules::call::Status;
use tariff::line::Line;
use tariff::terms::PlanCode;

impl<L: Line, B: Book> Account<L, B> {
    // Opens an account on a plan of the line, blocked and without money. It clears the books and keeps them.
    pub fn open(
        provision: Provision<L, B>,
        plan: PlanCode,
        moment: Moment,
    ) -> Result<Account<L, B>, RefusedOpening<L, B>>
        ensures told { refusal_told result ≡ opening_refusal (world (L.Line.tariff provision.line) B.Book.CAPACITY) plan.0 moment.0 }
        ensures account { account_told B.Book.means result ≡ opening (world (L.Line.tariff provision.line) B.Book.CAPACITY) plan.0 moment.0 }
        ensures handed { Handed provision result }
    {
        if moment.call_day().is_none() {
            let fault = Fault::PastLastMoment;
            return Err(RefusedOpening { fault, provision });
        }
        let Some(terms) = provision.line.terms(plan) else {
            let fault = Fault::NoTerms;
            return Err(RefusedOpening { fault, provision });
        };
        let Provision { line, mut books } = provision;
        // three calls: a walk that lends each book to a closure would be longer, and say less to the clauses
        let _ = books.minutes.clear();
        let _ = books.megabytes.clear();
        let _ = books.messages.clear();
        Ok(Account {
            line,
            latest: moment,
            ledger: Ledger {
                plan,
                terms,
                balance: Balance { sums: Sums(0) },
                status: Status::Blocked,
                last_fee: None,
                anchor: None,
                option: false,
                books,
            },
        })
    }
}
