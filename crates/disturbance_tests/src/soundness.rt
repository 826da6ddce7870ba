//! Which samples make a trace.
use crate::traces::at;
use disturbance::trace::is_sound;
use recording::sample::Sample;

fn alone(time: u32, frequency: u32, power: i32) -> bool {
    is_sound(&[Sample {
        time,
        frequency,
        power,
    }])
}

#[test]
fn none_and_one_are_sound(rt: HostRuntime) {
    assert!(rt; is_sound(&[]));
    assert!(rt; alone(0, 47_000, -1_000_000_000));
    assert!(rt; alone(1_200_000, 52_000, 1_000_000_000));
}

#[test]
fn a_field_outside_its_limits_is_not(rt: HostRuntime) {
    assert!(rt; !alone(1_200_001, 50_000, 0));
    assert!(rt; !alone(0, 46_999, 0));
    assert!(rt; !alone(0, 52_001, 0));
    assert!(rt; !alone(0, 50_000, -1_000_000_001));
    assert!(rt; !alone(0, 50_000, 1_000_000_001));
}

#[test]
fn times_strictly_rise(rt: HostRuntime) {
    assert!(rt; is_sound(&[at(7, 50_000), at(8, 50_000), at(1_200_000, 50_000)]));
    assert!(rt; !is_sound(&[at(7, 50_000), at(8, 50_000), at(8, 50_000)]));
    assert!(rt; !is_sound(&[at(8, 50_000), at(7, 50_000), at(9, 50_000)]));
}

#[test]
fn the_last_sample_is_looked_at_too(rt: HostRuntime) {
    assert!(rt; !is_sound(&[at(7, 50_000), at(8, 50_000), at(9, 52_001)]));
}
