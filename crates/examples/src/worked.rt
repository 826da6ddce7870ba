//! The worked examples of the rules, as one statement.
ghost use Rattle.examples.specs.Worked.{WorkedExamples};

/// Times, weights, ties and deliveries of the rules, from the definitions that the calls follow.
pub fn worked_examples()
    ensures the_rules_give_the_worked_numbers { WorkedExamples }
{}
