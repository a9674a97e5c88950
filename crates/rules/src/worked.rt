// Worked examples of the rules, as a contract.
ghost use Rattle.rules.specs.Examples.{Examples};

// The worked examples come out as stated.
pub fn examples_stand()
    ensures { Examples }
{}
