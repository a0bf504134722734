//! Worked examples of the definitions that contracts cite, as one table.
#![tactic(auto)]

ghost use Rattle.worked_examples.specs.Examples.{WorkedExamples};

/// Every example of the table holds.
pub fn worked_examples_hold()
    ensures { WorkedExamples }
{}
