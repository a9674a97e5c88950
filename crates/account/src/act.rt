// One call, from its moment to its receipt.
ghost use Rattle.std.specs.Prelude.{◌≡◌, false, is_ok};
ghost use Rattle.rules.specs.Runs.{step};
ghost use Rattle.receipt.specs.Columns.{receipt_of};
ghost use Rattle.fault.specs.Faults.{outcome_of};
ghost use Rattle.account.specs.Meaning.{account_of, world, answer};
ghost use Rattle.account.specs.Step.{OneStep};

use crate::account::Account;
use crate::judge::judge;
use crate::perform::perform;
use book::meaning::Book;
use fault::account::Fault;
use receipt::receipt::Receipt;
use rules::call::Event;
use tariff::line::Line;

impl<L: Line, B: Book> Account<L, B> {
    // Judges the call by reading; only an accepted one changes the account and fills the receipt.
    fn make(&mut self, event: Event, receipt: &mut Receipt) -> Result<(), Fault>
        ensures does { answer (outcome_of result) (account_of B.Book.means self.new) (receipt_of receipt.new) ≡ step (world (L.Line.tariff self.old.line) B.Book.CAPACITY) (account_of B.Book.means self.old) event }
        ensures line { self.new.line ≡ self.old.line }
        ensures same { is_ok result ≡ false → self.new ≡ self.old }
    {
        *receipt = Receipt::nothing();
        let Some(day) = event.moment.call_day() else {
            return Err(Fault::PastLastMoment);
        };
        if event.moment < self.latest {
            return Err(Fault::BeforeLatestMoment);
        }
        judge(&self.ledger, &self.line, day, event.call)?;
        let brought = self.ledger.bring_up(day);
        let done = perform(&mut self.ledger, &self.line, day, event.call);
        self.latest = event.moment;
        *receipt = brought.plus(done);
        Ok(())
    }

    // Any call, by its event. The receipt is set whole, whatever it held, each column within its bound.
    pub fn act(&mut self, event: Event, receipt: &mut Receipt) -> Result<(), Fault>
        ensures { OneStep L.Line.tariff B.Book.means B.Book.CAPACITY self.old event result self.new receipt.new }
    {
        self.make(event, receipt)
    }
}
