//! Worked deliveries.
ghost use Rattle.figure.specs.Worked.{WorkedDeliveries};

/// What is delivered for R6 on the four samples of the worked record, by several rules.
pub fn worked_deliveries()
    ensures the_steps_give_the_worked_watts { WorkedDeliveries }
{}
