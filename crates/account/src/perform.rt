// What an accepted call does to a ledger that is brought up to the day.
ghost use Rattle.std.specs.Prelude.{◌≡◌, ◌+◌, ◌-◌, ◌*◌, ◌^◌, ◌<◌, ◌≤◌, None as none_told};
ghost use Rattle.quantities.specs.Limits.{most_balance, most_use, most_price};
ghost use Rattle.tariff.specs.Terms.{terms_of, entry_of};
ghost use Rattle.book.specs.Allowance.{left, drawn, draw_answer};
ghost use Rattle.rules.specs.Receipt.{used};
ghost use Rattle.rules.specs.State.{with_balance};
ghost use Rattle.rules.specs.Calls.{wake_if_paid, serve as served, new_due, restarted, leave_plan, pay_entry, switched, perform as performed};
ghost use Rattle.rules.specs.Checks.{first_refusal, checks};
ghost use Rattle.rules.specs.Gregorian.{gregorian};
ghost use Rattle.rules.specs.declared.call.Status.TheVariants.{Active as active};
ghost use Rattle.rules.specs.declared.call.Call.TheVariants.{Switch as switch_call};
ghost use Rattle.receipt.specs.Columns.{tally_of, receipt_of, Below, AllBelow};
ghost use Rattle.ledger.specs.Meaning.{state_of, FollowsRule};
ghost use Rattle.account.specs.Leaving.{restart_concern, leave_concern};
ghost use Rattle.account.specs.Meaning.{world};

use crate::leaving::leave_books;
use crate::wiping::{wiped_by_restart, wiped_by_switch};
use book::meaning::Book;
use ledger::dates::new_due;
use ledger::ledger::Ledger;
use quantities::money::{Balance, Sums};
use quantities::price::Price;
use quantities::time::{CallDay, Day};
use quantities::unit::{Count, UnitKind};
use receipt::cause::Cause;
use receipt::receipt::Receipt;
use receipt::tally::Tally;
use rules::call::{Call, Service, Status};
use tariff::line::Line;
use tariff::terms::{Entry, PlanCode, Terms};

// What so many cost at a price within the limits.
fn cost_of<K>(price: Price<K>, count: u32) -> Sums
    requires { price.sums ≤ most_price }
    ensures value { result.0 ≡ count * price.sums }
    ensures small { result.0 < 2 ^ 46 }
{
    price.cost(Count::new(count))
}

// What the use of one unit came to.
#[derive(Clone, Copy)]
struct Served<K> {
    tally: Tally<K>,
    cost: Sums,
}

// Draws on a book; what goes beyond it costs its price.
fn draw_on<K, B: Book>(book: &mut B, price: Price<K>, n: u32) -> Served<K>
    requires { price.sums ≤ most_price }
    ensures book { B.Book.means book.new ≡ drawn n (B.Book.means book.old) }
    ensures tally { tally_of result.tally ≡ used (draw_answer n (B.Book.means book.old)) (n - left (B.Book.means book.old)) }
    ensures cost { result.cost.0 ≡ (n - left (B.Book.means book.old)) * price.sums }
    ensures small { (Below (2 ^ 33) (tally_of result.tally)) × (result.cost.0 < 2 ^ 46) }
{
    let within = book.draw(n).taken;
    let beyond = n - within;
    Served {
        tally: Tally::used(within, beyond),
        cost: cost_of(price, beyond),
    }
}

// Takes a charge from the balance.
fn pay<B: Book>(ledger: &mut Ledger<B>, cost: Sums)
    ensures { state_of B.Book.means ledger.new ≡ with_balance (ledger.old.balance.sums.0 - cost.0) (state_of B.Book.means ledger.old) }
{
    ledger.balance = ledger.balance.less(cost);
}

// An arm for each unit: book, price and tally of each have a type of their own.
fn serve<B: Book>(ledger: &mut Ledger<B>, service: Option<Service>, n: u32) -> Receipt
    ensures does { FollowsRule B.Book.means (served service n) ledger.old ledger.new result }
    ensures small { AllBelow (2 ^ 46) (receipt_of result) }
{
    let terms = ledger.terms;
    let books = &mut ledger.books;
    match service {
        None => Receipt::nothing(),
        Some(Service::Counted(UnitKind::Minutes)) => {
            let used = draw_on(&mut books.minutes, terms.minutes.beyond, n);
            pay(ledger, used.cost);
            Receipt {
                minutes: used.tally,
                use_charges: used.cost,
                ..Receipt::nothing()
            }
        }
        Some(Service::Counted(UnitKind::Megabytes)) => {
            let used = draw_on(&mut books.megabytes, terms.megabytes.beyond, n);
            pay(ledger, used.cost);
            Receipt {
                megabytes: used.tally,
                use_charges: used.cost,
                ..Receipt::nothing()
            }
        }
        Some(Service::Counted(UnitKind::Messages)) => {
            let used = draw_on(&mut books.messages, terms.messages.beyond, n);
            pay(ledger, used.cost);
            Receipt {
                messages: used.tally,
                use_charges: used.cost,
                ..Receipt::nothing()
            }
        }
        Some(Service::International) => {
            let cost = cost_of(terms.international.price, n);
            pay(ledger, cost);
            Receipt {
                use_charges: cost,
                ..Receipt::nothing()
            }
        }
    }
}

// The sums go to the balance; where a blocked account's balance reaches the fee, it starts on the day.
fn top_up<B: Book>(ledger: &mut Ledger<B>, day: CallDay, sums: Sums) -> Receipt
    requires { ledger.old.balance.sums.0 + sums.0 ≤ most_balance }
    ensures does { FollowsRule B.Book.means (λ s. wake_if_paid gregorian day.day.0 (with_balance (s.balance + sums.0) s)) ledger.old ledger.new result }
    ensures small { AllBelow (2 ^ 46) (receipt_of result) }
{
    ledger.balance = Balance {
        sums: Sums(ledger.balance.sums.0 + sums.0),
    };
    match ledger.status {
        Status::Blocked => {
            if ledger.balance.covers(ledger.terms.fee.sums) {
                ledger.start_on(day)
            } else {
                Receipt::nothing()
            }
        }
        Status::Active(_) => Receipt::nothing(),
    }
}

// The books are wiped or kept up to the due day, and the account starts anew on the day.
fn restart<B: Book>(ledger: &mut Ledger<B>, day: CallDay, due: Day) -> Receipt
    requires { (ledger.old.status ≡ active due) × (restart_concern B.Book.CAPACITY due.0 (new_due gregorian day.day.0) (state_of B.Book.means ledger.old) ≡ none_told) }
    ensures does { FollowsRule B.Book.means (restarted gregorian day.day.0) ledger.old ledger.new result }
    ensures small { AllBelow (2 ^ 35) (receipt_of result) }
{
    let wiped = wiped_by_restart(ledger.terms);
    let left = leave_books(ledger, Cause::Restart, wiped, due, new_due(day));
    let started = ledger.start_on(day);
    left.plus(started)
}

// The books of a blocked account stay as they are, empty.
fn leave_plan<B: Book>(ledger: &mut Ledger<B>, day: CallDay, entry: Entry) -> Receipt
    requires { leave_concern B.Book.CAPACITY (new_due gregorian day.day.0) (entry_of entry) (state_of B.Book.means ledger.old) ≡ none_told }
    ensures does { FollowsRule B.Book.means (leave_plan gregorian day.day.0 (entry_of entry)) ledger.old ledger.new result }
    ensures small { AllBelow (2 ^ 34) (receipt_of result) }
{
    match ledger.status {
        Status::Blocked => Receipt::nothing(),
        Status::Active(due) => {
            let wiped = wiped_by_switch(entry, ledger.terms);
            leave_books(ledger, Cause::Switch, wiped, due, new_due(day))
        }
    }
}

fn pay_entry<B: Book>(ledger: &mut Ledger<B>, entry: Entry) -> Receipt
    ensures does { FollowsRule B.Book.means (pay_entry (entry_of entry)) ledger.old ledger.new result }
    ensures small { AllBelow (2 ^ 34) (receipt_of result) }
{
    pay(ledger, entry.price);
    Receipt {
        switch_charges: entry.price,
        ..Receipt::nothing()
    }
}

// The entry is paid, the old plan left, and the account starts on the new one on the day.
fn enter<B: Book>(
    ledger: &mut Ledger<B>,
    day: CallDay,
    code: PlanCode,
    terms: Terms,
    entry: Entry,
) -> Receipt
    requires { leave_concern B.Book.CAPACITY (new_due gregorian day.day.0) (entry_of entry) (state_of B.Book.means ledger.old) ≡ none_told }
    ensures does { FollowsRule B.Book.means (switched gregorian day.day.0 code.0 (terms_of terms) (entry_of entry)) ledger.old ledger.new result }
    ensures small { AllBelow (2 ^ 36) (receipt_of result) }
{
    let paid = pay_entry(ledger, entry);
    let left = leave_plan(ledger, day, entry);
    ledger.plan = code;
    ledger.terms = terms;
    let started = ledger.start_on(day);
    paid.plus(left.plus(started))
}

// Ledger, line and day stay parameters here and below, as in judging.
fn switch_to<L: Line, B: Book>(
    ledger: &mut Ledger<B>,
    line: &L,
    day: CallDay,
    code: PlanCode,
) -> Receipt
    requires { first_refusal (checks (world (L.Line.tariff line.now) B.Book.CAPACITY) day.day.0 (switch_call code) (state_of B.Book.means ledger.old)) ≡ none_told }
    ensures does { FollowsRule B.Book.means (performed (world (L.Line.tariff line.now) B.Book.CAPACITY) day.day.0 (switch_call code)) ledger.old ledger.new result }
    ensures small { AllBelow (2 ^ 36) (receipt_of result) }
{
    let Some(terms) = line.terms(code) else {
        return Receipt::nothing();
    };
    let Some(entry) = line.entry(ledger.plan, code) else {
        return Receipt::nothing();
    };
    enter(ledger, day, code, terms, entry)
}

pub(crate) fn perform<L: Line, B: Book>(
    ledger: &mut Ledger<B>,
    line: &L,
    day: CallDay,
    call: Call,
) -> Receipt
    requires { first_refusal (checks (world (L.Line.tariff line.now) B.Book.CAPACITY) day.day.0 call (state_of B.Book.means ledger.old)) ≡ none_told }
    ensures does { FollowsRule B.Book.means (performed (world (L.Line.tariff line.now) B.Book.CAPACITY) day.day.0 call) ledger.old ledger.new result }
    ensures small { AllBelow (2 ^ 46) (receipt_of result) }
{
    // one match on status and call together, since what a call does depends on both
    match (ledger.status, call) {
        (_, Call::TopUp(sums)) => top_up(ledger, day, sums),
        (_, Call::Use(service, n)) => serve(ledger, service, n),
        (Status::Blocked, Call::Restart) => Receipt::nothing(),
        (Status::Active(due), Call::Restart) => restart(ledger, day, due),
        (_, Call::Switch(code)) => switch_to(ledger, line, day, code),
        (_, Call::MegabyteOption) => {
            ledger.option = true;
            Receipt::nothing()
        }
        (_, Call::DayMark) => Receipt::nothing(),
    }
}
