//! Putting a reading at the end.
use crate::expected::*;
use docket::docket::OpenDocket;
use recording::reading::{FloatingReading, Reading};

#[test]
fn samples_are_added_at_the_end(rt: HostRuntime) {
    let mut table = [BLANK; 3];
    let mut docket = OpenDocket::new();
    counts(&rt, docket.put(&mut table, reading(7, 49_850, -5)), 1);
    counts(&rt, docket.put(&mut table, reading(8, 50_150, 6)), 2);
    holds(&rt, &table, 0, 7, 49_850, -5);
    holds(&rt, &table, 1, 8, 50_150, 6);
    is_blank(&rt, &table, 2);
}

// 49.9375 Hz is 49,937.5 mHz, and -0.0078125 MW is -7,812.5 W: both go up.
#[test]
fn a_floating_reading_is_added_as_its_sample(rt: HostRuntime) {
    let mut table = [BLANK; 1];
    let mut docket = OpenDocket::new();
    let floating = FloatingReading {
        time: 9,
        frequency: 49.9375,
        power: -0.0078125,
    };
    counts(&rt, docket.put(&mut table, Reading::Floating(floating)), 1);
    holds(&rt, &table, 0, 9, 49_938, -7_812);
}

#[test]
fn times_strictly_rise(rt: HostRuntime) {
    let mut table = [BLANK; 3];
    let mut docket = OpenDocket::new();
    counts(&rt, docket.put(&mut table, steady(100)), 1);
    refused(&rt, docket.put(&mut table, steady(99)), 6, 1);
    refused(&rt, docket.put(&mut table, steady(100)), 6, 1);
    is_blank(&rt, &table, 1);
    counts(&rt, docket.put(&mut table, steady(101)), 2);
}

#[test]
fn the_first_and_the_latest_time_may_be_put(rt: HostRuntime) {
    let mut table = [BLANK; 3];
    let mut docket = OpenDocket::new();
    counts(&rt, docket.put(&mut table, steady(0)), 1);
    counts(&rt, docket.put(&mut table, steady(1_200_000)), 2);
    refused_in(&rt, docket.put(&mut table, steady(1_200_001)), 4, 2, 0, 1);
}

#[test]
fn a_field_outside_its_limits_is_refused(rt: HostRuntime) {
    let mut table = [BLANK; 2];
    let mut docket = OpenDocket::new();
    let late = reading(1_200_001, 0, i32::MIN);
    let fast = reading(0, 52_001, i32::MIN);
    let strong = reading(0, 52_000, -1_000_000_001);
    refused_in(&rt, docket.put(&mut table, late), 4, 0, 0, 1);
    refused_in(&rt, docket.put(&mut table, fast), 4, 0, 0, 2);
    refused_in(&rt, docket.put(&mut table, strong), 4, 0, 0, 3);
    is_blank(&rt, &table, 0);
    let just_inside = reading(0, 52_000, -1_000_000_000);
    counts(&rt, docket.put(&mut table, just_inside), 1);
}

// A field outside comes before the want of a place, and that before the order.
#[test]
fn a_full_table_takes_no_more(rt: HostRuntime) {
    let mut table = [BLANK; 2];
    let mut docket = OpenDocket::new();
    counts(&rt, docket.put(&mut table, steady(10)), 1);
    counts(&rt, docket.put(&mut table, steady(20)), 2);
    refused(&rt, docket.put(&mut table, steady(30)), 5, 2);
    refused(&rt, docket.put(&mut table, steady(20)), 5, 2);
    refused_in(
        &rt,
        docket.put(&mut table, reading(30, 46_999, 0)),
        4,
        2,
        0,
        2,
    );
    holds_steady(&rt, &table, 1, 20);
}

#[test]
fn a_table_without_places_takes_none(rt: HostRuntime) {
    let mut docket = OpenDocket::new();
    refused(&rt, docket.put(&mut [], steady(10)), 5, 0);
}
