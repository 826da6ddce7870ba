//! Readings in whole units: each limit, and the value just outside.
use crate::expected::{gives, outside};
use recording::reading::{Reading, WholeReading};
use std::process::Abort;

fn reading(time: u32, frequency: u32, power: i32) -> Reading {
    Reading::Whole(WholeReading {
        time,
        frequency,
        power,
    })
}

// The sample has the numbers of the reading.
fn kept(rt: &impl Abort, time: u32, frequency: u32, power: i32) {
    let got = reading(time, frequency, power).sample();
    gives(rt, got, time, frequency, power);
}

// The reading is refused for this field.
fn refused(rt: &impl Abort, time: u32, frequency: u32, power: i32, number: u8) {
    outside(rt, reading(time, frequency, power), number);
}

#[test]
fn each_limit_is_inside(rt: HostRuntime) {
    kept(&rt, 0, 50_000, 0);
    kept(&rt, 1_200_000, 50_000, 0);
    kept(&rt, 0, 47_000, 0);
    kept(&rt, 0, 52_000, 0);
    kept(&rt, 0, 50_000, -1_000_000_000);
    kept(&rt, 0, 50_000, 1_000_000_000);
}

#[test]
fn just_beyond_each_limit_is_outside(rt: HostRuntime) {
    refused(&rt, 1_200_001, 50_000, 0, 1);
    refused(&rt, 0, 46_999, 0, 2);
    refused(&rt, 0, 52_001, 0, 2);
    refused(&rt, 0, 50_000, -1_000_000_001, 3);
    refused(&rt, 0, 50_000, 1_000_000_001, 3);
}

#[test]
fn the_widest_numbers_are_outside(rt: HostRuntime) {
    refused(&rt, u32::MAX, 50_000, 0, 1);
    refused(&rt, 0, u32::MAX, 0, 2);
    refused(&rt, 0, 0, 0, 2);
    refused(&rt, 0, 50_000, i32::MIN, 3);
    refused(&rt, 0, 50_000, i32::MAX, 3);
}

#[test]
fn the_first_field_outside_is_named(rt: HostRuntime) {
    refused(&rt, 1_200_001, 46_999, 1_000_000_001, 1);
    refused(&rt, 1_200_000, 46_999, 1_000_000_001, 2);
    refused(&rt, 1_200_001, 50_000, 1_000_000_001, 1);
}
