// Worked examples of the rules, proved from the definitions that the contracts of the other crates name.
#![tactic(auto)]

ghost use Rattle.examples.specs.Examples.{ExamplesHold};

// Every example of the table holds: a crate with this function has the proof.
pub fn examples_stand()
    ensures { ExamplesHold }
{}
