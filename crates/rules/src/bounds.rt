// What no run of calls passes, as a contract.
ghost use Rattle.rules.specs.Gregorian.{gregorian};
ghost use Rattle.rules.specs.Bounds.{BalanceBounded, BlockedEmpty, DueDayAhead, DuesEnd, DueDaysBounded, FeesGrantInFull, HundredYears, ColumnsBounded};

// The bounds of every account and receipt that calls lead to from a new account hold.
pub fn bounds_stand()
    ensures balance { BalanceBounded }
    ensures blocked { BlockedEmpty }
    ensures due { DueDayAhead }
    ensures dues { DueDaysBounded }
    ensures january { DuesEnd gregorian }
    ensures grants { FeesGrantInFull }
    ensures columns { ColumnsBounded }
    ensures years { HundredYears gregorian }
{}
