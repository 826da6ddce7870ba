//! Worked cases.
ghost use Rattle.disturbance.specs.Worked.{WorkedCases};

/// The disturbance, recovery and trigger time of a few records.
pub fn worked_cases()
    ensures worked_cases_come_out_as_listed { WorkedCases }
{}
