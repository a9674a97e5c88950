// Adding up the receipts that a run posts.
ghost use Rattle.totals.specs.Adding.{Adds};

use crate::totals::Totals;
use event_run::journal::Journal;
use event_run::posted::Posted;

impl Journal for Totals {
    ghost takes = { Adds };

    fn post(&mut self, posted: Posted) {
        self.receipt = self.receipt.plus(posted.receipt);
    }
}
