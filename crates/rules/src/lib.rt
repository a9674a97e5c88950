// The rules of an account: what each call does and refuses, as definitions, and the laws over every run of calls.
#![tactic(auto)]

ghost use Rattle.rules.specs.Laws.{MoneyCloses, UnitsClose, DayMarkFree, BringingUpJoins, RefusalChangesNothing};

pub mod bounds;
pub mod call;
pub mod worked;

// The laws of every run of calls from a newly opened account hold.
pub fn laws_stand()
    ensures money { MoneyCloses }
    ensures units { UnitsClose }
    ensures marks { DayMarkFree }
    ensures joins { BringingUpJoins }
    ensures refusals { RefusalChangesNothing }
{}
