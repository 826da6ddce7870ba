//! A record mirrored about nominal, and its disturbance in the other direction.
ghost use Rattle.disturbance.specs.Turning.{TurningLaws};

/// Low and high are treated alike: whatever holds of a record and its disturbance holds of the
/// mirrored record and the disturbance in the other direction.
pub fn turning_laws()
    ensures low_and_high_alike { TurningLaws }
{}
