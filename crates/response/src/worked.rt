//! Worked weights of the variable rule.
ghost use Rattle.response.specs.WorkedWeights.{WorkedWeights};

/// With plain settings, 2,000 ms after the disturbance, a dip of 150 or 450 weighs 1, one of 200
/// weighs 3 and one of 300 weighs 5/3.
pub fn worked_weights()
    ensures worked_weights_come_out_as_listed { WorkedWeights }
{}
