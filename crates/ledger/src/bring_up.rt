// Bringing a ledger up to a day.
ghost use Rattle.std.specs.Prelude.{◌≡◌, suc, ◌^◌};
ghost use Rattle.rules.specs.DueDays.{settle as settled, lapse_all, bring_up};
ghost use Rattle.rules.specs.Gregorian.{gregorian};
ghost use Rattle.receipt.specs.Columns.{receipt_of, AllBelow};
ghost use Rattle.ledger.specs.Meaning.{FollowsRule};

use crate::books::lapse_book;
use crate::ledger::Ledger;
use book::meaning::Book;
use quantities::time::CallDay;
use receipt::receipt::Receipt;
use rules::call::Status;

impl<B: Book> Ledger<B> {
    // Handles every due day at or before the day, one after another.
    pub fn settle(&mut self, day: CallDay) -> Receipt
        ensures does { FollowsRule B.Book.means (settled gregorian (suc day.day.0) day.day.0) self.old self.new result }
        ensures small { AllBelow (2 ^ 52) (receipt_of result) }
    {
        let mut total = Receipt::nothing();
        while let Status::Active(due) = self.status {
            if due > day.day {
                break;
            }
            let receipt = self.handle(CallDay { day: due });
            total = total.plus(receipt);
        }
        total
    }

    // Unit by unit: each tally has a type of its own.
    fn lapse(&mut self, day: CallDay) -> Receipt
        ensures does { FollowsRule B.Book.means (lapse_all day.day.0) self.old self.new result }
        ensures small { AllBelow (2 ^ 34) (receipt_of result) }
    {
        let minutes = lapse_book(&mut self.books.minutes, day.day);
        let megabytes = lapse_book(&mut self.books.megabytes, day.day);
        let messages = lapse_book(&mut self.books.messages, day.day);
        Receipt::of_units(minutes, megabytes, messages)
    }

    // Handles the due days, and lets old lots lapse.
    pub fn bring_up(&mut self, day: CallDay) -> Receipt
        ensures does { FollowsRule B.Book.means (bring_up gregorian day.day.0) self.old self.new result }
        ensures small { AllBelow (2 ^ 53) (receipt_of result) }
    {
        let settled = self.settle(day);
        let lapsed = self.lapse(day);
        settled.plus(lapsed)
    }
}
