// Whether a call is refused, and why. Judging reads only.
ghost use Rattle.std.specs.Prelude.{◌≡◌, ◌+◌, ◌-◌, ◌*◌, ◌≤◌, []};
ghost use Rattle.quantities.specs.Limits.{most_grant};
ghost use Rattle.tariff.specs.Terms.{Tariff};
ghost use Rattle.book.specs.Allowance.{left, lapsed};
ghost use Rattle.rules.specs.State.{World};
ghost use Rattle.rules.specs.DueDays.{lapse_all, bring_up};
ghost use Rattle.rules.specs.Calls.{charge as use_charge};
ghost use Rattle.rules.specs.Checks.{has_service, runs_past, is_on, first_refusal, checks};
ghost use Rattle.rules.specs.Gregorian.{gregorian};
ghost use Rattle.rules.specs.declared.call.Call.TheVariants.{TopUp as top_up_call, Use as use_call, Restart as restart_call, Switch as switch_call};
ghost use Rattle.ledger.specs.Meaning.{state_of};
ghost use Rattle.small_book.specs.Meaning.{meaning};
ghost use Rattle.fault.specs.Faults.{outcome_of};
ghost use Rattle.rules.specs.Ahead.{stripped};
ghost use Rattle.account.specs.Judging.{refusal_after_lapse};
ghost use Rattle.account.specs.Meaning.{world};

use crate::keeping::judge_books;
use crate::wiping::{wiped_by_restart, wiped_by_switch};
use book::meaning::Book;
use fault::account::Fault;
use ledger::ledger::Ledger;
use quantities::limits::{MOST_BALANCE, MOST_TOP_UP, MOST_USE};
use quantities::money::Sums;
use quantities::price::Price;
use quantities::time::{CallDay, Day};
use quantities::unit::{Count, UnitKind};
use rules::call::{Call, Service, Status};
use small_book::small::Small;
use tariff::line::Line;
use tariff::terms::PlanCode;

// What is left of a unit after a lapse on the day.
fn left_after<B: Book>(book: &B, day: Day) -> u64
    ensures answer { result ≡ left (lapsed day.0 (B.Book.means book.now)) }
{
    u64::from(book.fresh_after(day)) + u64::from(book.old_after(day))
}

// What a use costs that goes beyond what is left after a lapse on the day.
fn cost_beyond<K, B: Book>(book: &B, price: Price<K>, day: Day, n: u32) -> Sums
    ensures { result.0 ≡ (n - left (lapsed day.0 (B.Book.means book.now))) * price.sums }
{
    let over = u64::from(n).saturating_sub(left_after(book, day));
    price.cost(Count::new(over as u32))
}

// An arm for each unit: the terms of each have a type of their own.
fn offers<B: Book>(ledger: &Ledger<B>, service: Option<Service>) -> bool
    ensures { result ≡ has_service service (state_of B.Book.means ledger.now) }
{
    match service {
        None => false,
        Some(Service::Counted(UnitKind::Minutes)) => ledger.terms.minutes.offered,
        Some(Service::Counted(UnitKind::Megabytes)) => ledger.terms.megabytes.offered,
        Some(Service::Counted(UnitKind::Messages)) => ledger.terms.messages.offered,
        Some(Service::International) => ledger.terms.international.offered,
    }
}

// What a use costs after a lapse on the day. A service and its number are two parameters, as a call has them.
fn charge<B: Book>(ledger: &Ledger<B>, day: Day, service: Option<Service>, n: u32) -> Sums
    ensures { result.0 ≡ use_charge service n (lapse_all day.0 (state_of B.Book.means ledger.now)).state }
{
    let terms = &ledger.terms;
    let books = &ledger.books;
    match service {
        None => Sums(0),
        Some(Service::Counted(unit)) => match unit {
            UnitKind::Minutes => cost_beyond(&books.minutes, terms.minutes.beyond, day, n),
            UnitKind::Megabytes => cost_beyond(&books.megabytes, terms.megabytes.beyond, day, n),
            UnitKind::Messages => cost_beyond(&books.messages, terms.messages.beyond, day, n),
        },
        Some(Service::International) => terms.international.price.cost(Count::new(n)),
    }
}

// Whether megabytes would run past the allowance while the option is off.
fn runs_past<B: Book>(ledger: &Ledger<B>, day: Day, service: Option<Service>, n: u32) -> bool
    ensures { result ≡ runs_past service n (lapse_all day.0 (state_of B.Book.means ledger.now)).state }
{
    match service {
        Some(Service::Counted(UnitKind::Megabytes)) => {
            !ledger.option && left_after(&ledger.books.megabytes, day) < u64::from(n)
        }
        _ => false,
    }
}

// A top-up is judged alike on every line.
fn judge_top_up<B: Book>(ledger: &Ledger<B>, day: CallDay, sums: Sums) -> Result<(), Fault>
    ensures told { (w : World) → outcome_of result ≡ refusal_after_lapse w day.day.0 (top_up_call sums) (state_of B.Book.means ledger.now) }
{
    // two comparisons: what `contains` tells speaks of the state of a range as well
    if sums.0 < 1 || sums.0 > MOST_TOP_UP {
        return Err(Fault::AmountOutOfRange);
    }
    // a sum of numbers, since it may be no balance
    if ledger.balance.sums.0 + sums.0 > MOST_BALANCE {
        return Err(Fault::BalanceTooHigh);
    }
    Ok(())
}

// So is a use.
fn judge_use<B: Book>(
    ledger: &Ledger<B>,
    day: CallDay,
    service: Option<Service>,
    n: u32,
) -> Result<(), Fault>
    ensures told { (w : World) → outcome_of result ≡ refusal_after_lapse w day.day.0 (use_call service n) (state_of B.Book.means ledger.now) }
{
    // two comparisons, as for a top-up
    if n < 1 || n > MOST_USE {
        return Err(Fault::AmountOutOfRange);
    }
    if let Status::Blocked = ledger.status {
        return Err(Fault::Blocked);
    }
    if !offers(ledger, service) {
        return Err(Fault::NotOffered);
    }
    if runs_past(ledger, day.day, service, n) {
        return Err(Fault::MegabytesPastAllowance);
    }
    if !ledger.balance.covers(charge(ledger, day.day, service, n)) {
        return Err(Fault::BalanceTooLow);
    }
    Ok(())
}

fn fee_taken_on<B: Book>(ledger: &Ledger<B>, day: Day) -> bool
    ensures { result ≡ is_on ledger.now.last_fee day.0 }
{
    ledger.last_fee == Some(day)
}

// So is a Restart, but for the room that the books have.
fn judge_restart<B: Book>(ledger: &Ledger<B>, day: CallDay) -> Result<(), Fault>
    ensures told { (t : Tariff) → outcome_of result ≡ refusal_after_lapse (world t B.Book.CAPACITY) day.day.0 restart_call (state_of B.Book.means ledger.now) }
{
    let Status::Active(due) = ledger.status else {
        return Err(Fault::Blocked);
    };
    if fee_taken_on(ledger, day.day) {
        return Err(Fault::FeeTakenThatDay);
    }
    if !ledger.balance.covers(ledger.terms.fee.sums) {
        return Err(Fault::BalanceTooLow);
    }
    judge_books(ledger, day, due, wiped_by_restart(ledger.terms))
}

fn judge_switch<L: Line, B: Book>(
    ledger: &Ledger<B>,
    line: &L,
    day: CallDay,
    code: PlanCode,
) -> Result<(), Fault>
    ensures told { outcome_of result ≡ refusal_after_lapse (world (L.Line.tariff line.now) B.Book.CAPACITY) day.day.0 (switch_call code) (state_of B.Book.means ledger.now) }
{
    let Some(terms) = line.terms(code) else {
        return Err(Fault::NoTerms);
    };
    let Some(entry) = line.entry(ledger.plan, code) else {
        return Err(Fault::NoEntry);
    };
    if !ledger.balance.covers(entry.price.plus(terms.fee.sums)) {
        return Err(Fault::BalanceTooLow);
    }
    match ledger.status {
        Status::Blocked => Ok(()),
        Status::Active(due) => judge_books(ledger, day, due, wiped_by_switch(entry, ledger.terms)),
    }
}

// Which refusal a call meets after a lapse on the day. Ledger, line and day stay three parameters: in a struct, each clause
// would reach for them by `self.now.ledger.now`.
fn judge_at<L: Line, B: Book>(
    ledger: &Ledger<B>,
    line: &L,
    day: CallDay,
    call: Call,
) -> Result<(), Fault>
    ensures told { outcome_of result ≡ refusal_after_lapse (world (L.Line.tariff line.now) B.Book.CAPACITY) day.day.0 call (state_of B.Book.means ledger.now) }
{
    // one match on status and call together, since a call is judged by both
    match (ledger.status, call) {
        (_, Call::TopUp(sums)) => judge_top_up(ledger, day, sums),
        (_, Call::Use(service, n)) => judge_use(ledger, day, service, n),
        (_, Call::Restart) => judge_restart(ledger, day),
        (_, Call::Switch(code)) => judge_switch(ledger, line, day, code),
        (Status::Blocked, Call::MegabyteOption) => Err(Fault::Blocked),
        (Status::Active(_), Call::MegabyteOption) => Ok(()),
        (_, Call::DayMark) => Ok(()),
    }
}

// A small book with this much fresh and nothing old.
fn fresh_only(fresh: u32) -> Small
    ensures { fresh ≤ most_grant → meaning result ≡ record { fresh = fresh; lots = [] } }
{
    let mut book = Small::new();
    let _ = book.fill(fresh);
    book
}

// What the handling of a due day reads: all but the old lots, which it drops. Its other fields are copied one by one, since
// books of another kind make it a ledger of another type.
fn ahead<B: Book>(ledger: &Ledger<B>, day: Day) -> Ledger<Small>
    ensures { state_of meaning result ≡ stripped (state_of B.Book.means ledger.now) }
{
    Ledger {
        plan: ledger.plan,
        terms: ledger.terms,
        balance: ledger.balance,
        status: ledger.status,
        last_fee: ledger.last_fee,
        anchor: ledger.anchor,
        option: ledger.option,
        books: ledger.books.map(|book| fresh_only(book.fresh_after(day))),
    }
}

// Which refusal a call meets once the ledger is brought up to the day. Where a due day comes first, it is looked at
// ahead on small books.
pub(crate) fn judge<L: Line, B: Book>(
    ledger: &Ledger<B>,
    line: &L,
    day: CallDay,
    call: Call,
) -> Result<(), Fault>
    ensures told { outcome_of result ≡ first_refusal (checks (world (L.Line.tariff line.now) B.Book.CAPACITY) day.day.0 call (bring_up gregorian day.day.0 (state_of B.Book.means ledger.now)).state) }
{
    match ledger.status {
        Status::Blocked => judge_at(ledger, line, day, call),
        Status::Active(due) => {
            if due > day.day {
                return judge_at(ledger, line, day, call);
            }
            let mut next = ahead(ledger, day.day);
            let _ = next.settle(day);
            judge_at(&next, line, day, call)
        }
    }
}
