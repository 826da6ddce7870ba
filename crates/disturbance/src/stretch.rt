//! A stretch of a trace: two neighbouring samples. The frequency between them follows the straight
//! line.
ghost use Rattle.std.specs.Prelude.{◌<◌};
ghost use Rattle.disturbance.specs.Trace.{Within};

use recording::sample::Sample;

#[derive(Clone, Copy)]
pub(crate) struct Stretch {
    pub(crate) before: Sample,
    pub(crate) after: Sample,
    ghost order: { before.time < after.time },
    ghost before_within: { Within before },
    ghost after_within: { Within after },
}
