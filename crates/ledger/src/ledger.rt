// What an account keeps apart from its tariff line and the moment of its latest call.
ghost use Rattle.std.specs.Prelude.{◌≤◌};
ghost use Rattle.rules.specs.State.{anchor_day};

use calendar::anchor::Anchor;
use quantities::money::Balance;
use quantities::time::Day;
use quantities::unit::PerUnit;
use rules::call::Status;
use tariff::terms::{PlanCode, Terms};

// All of an account that bringing it up to a day can change, over three books. No model, as for an account. That an anchor
// is 1 to 31 is said here: `Anchor` takes any number, since `due_day` is asked about any.
#[derive(Drop)]
pub struct Ledger<B> {
    pub plan: PlanCode,
    // a copy of the plan's terms
    pub terms: Terms,
    pub balance: Balance,
    pub status: Status,
    pub last_fee: Option<Day>,
    pub anchor: Option<Anchor>,
    // whether megabytes may run past the allowance until the next fee
    pub option: bool,
    pub books: PerUnit<B>,
    ghost anchor_least: { 1 ≤ anchor_day anchor },
    ghost anchor_most: { anchor_day anchor ≤ 31 },
}
