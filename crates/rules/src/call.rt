// The calls on an account, and what an account's status is.
use quantities::money::Sums;
use quantities::time::{Day, Moment};
use quantities::unit::UnitKind;
use tariff::terms::PlanCode;

// What a use is of: one of the three units, or messages abroad, which no allowance covers. Not an `Option<UnitKind>`, whose
// `None` would not say messages abroad.
#[derive(Clone, Copy, PartialEq, Eq, Debug)]
pub enum Service {
    Counted(UnitKind),
    International,
}

// A call. A use names its service, or none where no service has the code that was asked for.
#[derive(Clone, Copy, PartialEq, Eq, Debug)]
pub enum Call {
    TopUp(Sums),
    Use(Option<Service>, u32),
    Restart,
    Switch(PlanCode),
    // lets megabytes run past the allowance until the next fee
    MegabyteOption,
    // a day mark: a call that only brings the account up to its day
    DayMark,
}

// A call with its moment.
#[derive(Clone, Copy, PartialEq, Eq, Debug)]
pub struct Event {
    pub moment: Moment,
    pub call: Call,
}

// Blocked, or active until its due day, the next day on which a fee falls due. Not an `Option<Day>`, whose `None` would not
// say that the account is blocked.
#[derive(Clone, Copy, PartialEq, Eq, Debug)]
pub enum Status {
    Blocked,
    Active(Day),
}
