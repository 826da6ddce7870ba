//! What the examples share: samples, traces and the checks of answers.
use disturbance::direction::Direction;
use disturbance::disturbance::{Disturbance, find_disturbance};
use disturbance::recovery::recovery;
use disturbance::trace::Trace;
use disturbance::trigger::trigger_time;
use recording::sample::Sample;
use std::process::Abort;
use std::test::Fail;

// Power does not matter to the line.
pub(crate) fn at(time: u32, frequency: u32) -> Sample {
    Sample {
        time,
        frequency,
        power: 0,
    }
}

// It leaves the band at 2 mHz a ms and comes back at 10 mHz a ms.
pub(crate) fn record_a() -> [Sample; 4] {
    [
        at(5_000, 50_000),
        at(20_000, 49_850),
        at(20_050, 49_750),
        at(20_100, 50_250),
    ]
}

// Two names, so that an example names its side in one word.
pub(crate) fn low(time: u32) -> Disturbance {
    Disturbance {
        time,
        direction: Direction::Low,
    }
}

pub(crate) fn high(time: u32) -> Disturbance {
    Disturbance {
        time,
        direction: Direction::High,
    }
}

// The trace that sound samples make.
fn trace_of(samples: &[Sample]) -> Result<Trace<'_>, &'static str> {
    Trace::new(samples).ok_or("sound samples were expected")
}

pub(crate) fn is_disturbed(
    rt: &impl Abort,
    samples: &[Sample],
    expected: Disturbance,
) -> Result<(), Fail> {
    assert_eq!(rt; find_disturbance(trace_of(samples)?), Some(expected));
    Ok(())
}

pub(crate) fn is_undisturbed(rt: &impl Abort, samples: &[Sample]) -> Result<(), Fail> {
    assert_eq!(rt; find_disturbance(trace_of(samples)?), None);
    Ok(())
}

// The disturbance is on the samples, and the network recovers from it at the time.
pub(crate) fn recovers(
    rt: &impl Abort,
    samples: &[Sample],
    disturbance: Disturbance,
    expected: Option<u32>,
) -> Result<(), Fail> {
    is_disturbed(rt, samples, disturbance)?;
    assert_eq!(rt; recovery(trace_of(samples)?, disturbance), expected);
    Ok(())
}

// The disturbance is on the samples, and the dip reaches the trigger at the time, before recovery.
pub(crate) fn triggers(
    rt: &impl Abort,
    samples: &[Sample],
    disturbance: Disturbance,
    trigger: u32,
    expected: Option<u32>,
) -> Result<(), Fail> {
    is_disturbed(rt, samples, disturbance)?;
    let trace = trace_of(samples)?;
    let end = recovery(trace, disturbance);
    assert_eq!(rt; trigger_time(trace, disturbance, end, trigger), expected);
    Ok(())
}
