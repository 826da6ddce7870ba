//! Readings in floats: limits before rounding, half-up after it, and floats that are not ordinary
//! numbers.
use crate::expected::{gives, outside};
use recording::reading::{FloatingReading, Reading};
use std::process::Abort;

fn reading(time: u32, frequency: f32, power: f32) -> Reading {
    Reading::Floating(FloatingReading {
        time,
        frequency,
        power,
    })
}

// At 7 ms these Hz and MW are these mHz and W.
fn rounded(rt: &impl Abort, hz: f32, mw: f32, frequency: u32, power: i32) {
    gives(rt, reading(7, hz, mw).sample(), 7, frequency, power);
}

// The reading is refused for this field.
fn refused(rt: &impl Abort, time: u32, hz: f32, mw: f32, number: u8) {
    outside(rt, reading(time, hz, mw), number);
}

#[test]
fn each_limit_is_inside(rt: HostRuntime) {
    rounded(&rt, 47.0, -1000.0, 47_000, -1_000_000_000);
    rounded(&rt, 52.0, 1000.0, 52_000, 1_000_000_000);
    // the time at its limit is inside
    refused(&rt, 1_200_000, 53.0, 0.0, 2);
}

#[test]
fn the_nearest_float_beyond_each_limit_is_outside(rt: HostRuntime) {
    refused(&rt, 1_200_001, 50.0, 0.0, 1);
    refused(&rt, 0, 46.999996, 0.0, 2);
    refused(&rt, 0, 52.000004, 0.0, 2);
    refused(&rt, 0, 50.0, -1000.00006, 3);
    refused(&rt, 0, 50.0, 1000.00006, 3);
}

#[test]
fn no_number_and_infinities_are_outside(rt: HostRuntime) {
    refused(&rt, 0, f32::NAN, 0.0, 2);
    refused(&rt, 0, f32::INFINITY, 0.0, 2);
    refused(&rt, 0, f32::NEG_INFINITY, 0.0, 2);
    refused(&rt, 0, 50.0, f32::NAN, 3);
    refused(&rt, 0, 50.0, f32::INFINITY, 3);
    refused(&rt, 0, 50.0, f32::NEG_INFINITY, 3);
}

// Half-up of the value and one half: ties go up, on both sides of zero.
#[test]
fn ties_go_up(rt: HostRuntime) {
    rounded(&rt, 50.0625, 0.0078125, 50_063, 7_813);
    rounded(&rt, 49.9375, -0.0078125, 49_938, -7_812);
    rounded(&rt, 50.0, 0.0234375, 50_000, 23_438);
    rounded(&rt, 50.0, -0.0234375, 50_000, -23_437);
}

// 123.456 as a float is 123.45600128..., so that the watts are not those of the decimal text.
#[test]
fn the_floats_own_value_counts(rt: HostRuntime) {
    rounded(&rt, 49.85, 0.1, 49_850, 100_000);
    rounded(&rt, 50.15, 123.456, 50_150, 123_456_001);
    rounded(&rt, 50.0, -123.456, 50_000, -123_456_001);
    rounded(&rt, 50.0, 999.99994, 50_000, 999_999_939);
}

#[test]
fn tiny_powers_and_minus_zero_are_zero(rt: HostRuntime) {
    rounded(&rt, 50.0, -0.0, 50_000, 0);
    rounded(&rt, 50.0, 1e-45, 50_000, 0);
    rounded(&rt, 50.0, -1e-45, 50_000, 0);
    rounded(&rt, 50.0, 0.0000005, 50_000, 0);
    rounded(&rt, 50.0, -0.0000005, 50_000, 0);
}
