//! Worked examples, shown for the definitions themselves.
#![tactic(auto)]

ghost use Rattle.examples.specs.Examples.{AllHold};

/// Every example of the list holds, by computation. The call is there for what it says.
pub fn examples_hold()
    ensures { AllHold }
{}
