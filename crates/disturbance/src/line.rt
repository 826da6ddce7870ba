//! The straight line between neighbouring samples.
ghost use Rattle.exact.specs.Lines.{ThroughEnds};

/// The line goes through the samples at both its ends.
pub fn line_laws()
    ensures line_goes_through_both_samples { ThroughEnds }
{}
