// The calls on an account. Each sets the whole receipt that its host lends, whatever it held.
ghost use Rattle.rules.specs.declared.call.Call.TheVariants.{TopUp as top_up_call, Use as use_call, Restart as restart_call, Switch as switch_call, MegabyteOption as option_call, DayMark as day_mark_call};
ghost use Rattle.account.specs.Step.{OneStep};

use crate::account::Account;
use book::meaning::Book;
use fault::account::Fault;
use quantities::money::Sums;
use quantities::time::Moment;
use receipt::receipt::Receipt;
use rules::call::{Call, Event, Service};
use tariff::line::Line;
use tariff::terms::PlanCode;

impl<L: Line, B: Book> Account<L, B> {
    // Adds to the balance; a blocked account whose balance then reaches the fee starts on that day.
    pub fn top_up(&mut self, moment: Moment, sums: Sums, receipt: &mut Receipt) -> Result<(), Fault>
        ensures { OneStep L.Line.tariff B.Book.means B.Book.CAPACITY self.old (record { moment = moment; call = top_up_call sums }) result self.new receipt.new }
    {
        let call = Call::TopUp(sums);
        self.act(Event { moment, call }, receipt)
    }

    // Uses so many of a service; what goes beyond the allowance is charged.
    pub fn use_service(
        &mut self,
        moment: Moment,
        service: Option<Service>,
        n: u32,
        receipt: &mut Receipt,
    ) -> Result<(), Fault>
        ensures { OneStep L.Line.tariff B.Book.means B.Book.CAPACITY self.old (record { moment = moment; call = use_call service n }) result self.new receipt.new }
    {
        let call = Call::Use(service, n);
        self.act(Event { moment, call }, receipt)
    }

    // Ends the month early: the fee is taken on the day, which becomes the anchor.
    pub fn restart(&mut self, moment: Moment, receipt: &mut Receipt) -> Result<(), Fault>
        ensures { OneStep L.Line.tariff B.Book.means B.Book.CAPACITY self.old (record { moment = moment; call = restart_call }) result self.new receipt.new }
    {
        let call = Call::Restart;
        self.act(Event { moment, call }, receipt)
    }

    // Leaves the plan for that of the code, for the price of the entry, and starts on it on the day.
    pub fn switch_plan(
        &mut self,
        moment: Moment,
        plan: PlanCode,
        receipt: &mut Receipt,
    ) -> Result<(), Fault>
        ensures { OneStep L.Line.tariff B.Book.means B.Book.CAPACITY self.old (record { moment = moment; call = switch_call plan }) result self.new receipt.new }
    {
        let call = Call::Switch(plan);
        self.act(Event { moment, call }, receipt)
    }

    // Lets megabytes run past the allowance until the next fee.
    pub fn turn_on_option(&mut self, moment: Moment, receipt: &mut Receipt) -> Result<(), Fault>
        ensures { OneStep L.Line.tariff B.Book.means B.Book.CAPACITY self.old (record { moment = moment; call = option_call }) result self.new receipt.new }
    {
        let call = Call::MegabyteOption;
        self.act(Event { moment, call }, receipt)
    }

    // A day mark: only brings the account up to its day.
    pub fn mark_day(&mut self, moment: Moment, receipt: &mut Receipt) -> Result<(), Fault>
        ensures { OneStep L.Line.tariff B.Book.means B.Book.CAPACITY self.old (record { moment = moment; call = day_mark_call }) result self.new receipt.new }
    {
        let call = Call::DayMark;
        self.act(Event { moment, call }, receipt)
    }
}
