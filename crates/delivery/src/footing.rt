//! What a base is taken from.
ghost use Rattle.std.specs.Prelude.{◌≡◌, ◌<◌, true, [], length, Decides};
ghost use Rattle.figure.specs.Steps.{is_base};
ghost use Rattle.figure.specs.Defects.{Missed, OneMissed, MissedByTargets};
ghost use Rattle.delivery.specs.Footings.{points_on};

use crate::targets::Targets;
use disturbance::disturbance::Disturbance;
use disturbance::trace::Trace;
use response::base::BaseWindow;

// A trace with its disturbance, and the base window before the disturbance time.
#[derive(Clone, Copy)]
pub(crate) struct Footing<'a> {
    pub(crate) trace: Trace<'a>,
    pub(crate) disturbance: Disturbance,
    pub(crate) window: BaseWindow,
}

impl Footing<'_> {
    // Whether a sample at a time is a base sample. Both ends of the window are inside.
    pub(crate) fn counts(self, time: u32) -> bool
        ensures { result ≡ is_base self.entry.disturbance.time self.entry.window time }
    {
        let disturbance = self.disturbance.time as u64;
        disturbance <= time as u64 + self.window.begin as u64
            && time as u64 + self.window.end as u64 <= disturbance
    }

    // Whether there is no base sample.
    pub(crate) fn lacks_base(self) -> bool
        ensures { Decides result (points_on self.entry ≡ []) }
    {
        !self
            .trace
            .samples
            .iter()
            .any(|sample| self.counts(sample.time))
    }

    // Whether a sample at a time is a base sample and lies outside the targets.
    fn misses(self, targets: Targets, time: u32) -> bool
        ensures { Decides result ((is_base self.entry.disturbance.time self.entry.window time ≡ true)
            × ((0 < length targets.entry.all.now) × (Missed targets.entry.all.now time))) }
    {
        self.counts(time) && targets.miss(time)
    }

    // Whether one of the base samples lies outside the targets. One pass over the samples.
    fn misses_one(self, targets: Targets) -> bool
        ensures { Decides result ((0 < length targets.entry.all.now)
            × (OneMissed targets.entry.all.now (points_on self.entry))) }
    {
        self.trace
            .samples
            .iter()
            .any(|sample| self.misses(targets, sample.time))
    }

    // Whether, with targets, the disturbance time or a base sample lies outside them. Without
    // targets no sample is looked at.
    pub(crate) fn is_missed(self, targets: Targets) -> bool
        ensures { Decides result (MissedByTargets targets.entry.all.now self.entry.disturbance.time (points_on self.entry)) }
    {
        !targets.all.is_empty() && (targets.miss(self.disturbance.time) || self.misses_one(targets))
    }
}
