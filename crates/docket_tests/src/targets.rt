//! Dispatch targets: put, amend and strike on a timeline of at most 16.
use crate::expected::{counts, holds_entry, refused, refused_in};
use recording::refusal::{Layer, Refusal};
use std::process::Abort;
use timeline::target::Target;
use timeline::timeline::Timeline;

fn target(time: u32, power: i32) -> Target {
    Target { time, power }
}

// What a caller's table may hold before it is used.
const BLANK: Target = Target {
    time: u32::MAX,
    power: i32::MIN,
};

fn put(table: &mut [Target], count: usize, time: u32, power: i32) -> Result<usize, Refusal> {
    Timeline { table, count }.put(target(time, power))
}

fn amend(
    table: &mut [Target],
    count: usize,
    place: usize,
    time: u32,
    power: i32,
) -> Result<usize, Refusal> {
    Timeline { table, count }.amend(place, target(time, power))
}

fn strike(table: &mut [Target], count: usize, place: usize) -> Result<usize, Refusal> {
    Timeline { table, count }.strike(place)
}

fn holds(rt: &impl Abort, table: &[Target], place: usize, time: u32, power: i32) {
    holds_entry(rt, table, place, &target(time, power))
}

#[test]
fn targets_are_put_at_the_end(rt: HostRuntime) {
    let mut table = [BLANK; 3];
    counts(&rt, put(&mut table, 0, 0, -1_000_000_000), 1);
    counts(&rt, put(&mut table, 1, 1_200_000, 1_000_000_000), 2);
    holds(&rt, &table, 0, 0, -1_000_000_000);
    holds(&rt, &table, 1, 1_200_000, 1_000_000_000);
    holds(&rt, &table, 2, u32::MAX, i32::MIN);
}

#[test]
fn a_field_outside_its_limits_is_refused(rt: HostRuntime) {
    let mut table = [BLANK; 1];
    refused_in(
        &rt,
        put(&mut table, 0, 1_200_001, 1_000_000_001),
        4,
        0,
        0,
        1,
    );
    refused_in(
        &rt,
        put(&mut table, 0, 1_200_000, 1_000_000_001),
        4,
        0,
        0,
        3,
    );
    refused_in(
        &rt,
        put(&mut table, 0, 1_200_000, -1_000_000_001),
        4,
        0,
        0,
        3,
    );
    holds(&rt, &table, 0, u32::MAX, i32::MIN);
}

// The layers are those of a docket's samples.
#[test]
fn a_field_is_of_layer_reading_and_the_order_of_layer_docket(rt: HostRuntime) {
    let mut table = [target(5, 0), BLANK];
    let late = put(&mut table, 1, 1_200_001, 0).map_err(|refusal| refusal.layer());
    assert_eq!(rt; late, Err(Layer::Reading));
    let equal = put(&mut table, 1, 5, 0).map_err(|refusal| refusal.layer());
    assert_eq!(rt; equal, Err(Layer::Docket));
}

#[test]
fn times_strictly_rise(rt: HostRuntime) {
    let mut table = [target(5, 50), BLANK];
    refused(&rt, put(&mut table, 1, 5, 0), 6, 1);
    holds(&rt, &table, 1, u32::MAX, i32::MIN);
    counts(&rt, put(&mut table, 1, 6, 0), 2);
}

// Sixteen targets, one every 10 ms.
fn sixteen(rt: &impl Abort, table: &mut [Target]) {
    for k in 0..16 {
        counts(rt, put(table, k, 10 * k as u32, 7), k + 1);
    }
}

// There are 17 places, and 16 targets at most.
#[test]
fn the_seventeenth_is_refused(rt: HostRuntime) {
    let mut table = [BLANK; 17];
    sixteen(&rt, &mut table);
    holds(&rt, &table, 15, 150, 7);
    refused(&rt, put(&mut table, 16, 160, 7), 5, 16);
    refused_in(&rt, put(&mut table, 16, 160, 1_000_000_001), 4, 16, 0, 3);
    holds(&rt, &table, 16, u32::MAX, i32::MIN);
    counts(&rt, strike(&mut table, 16, 0), 15);
    counts(&rt, put(&mut table, 15, 160, 7), 16);
}

#[test]
fn amending_stays_between_the_neighbours(rt: HostRuntime) {
    let mut table = [target(5, 50), target(7, 70), target(9, 90)];
    refused(&rt, amend(&mut table, 3, 1, 5, 0), 6, 1);
    refused(&rt, amend(&mut table, 3, 1, 9, 0), 6, 1);
    refused(&rt, amend(&mut table, 3, 3, 8, 0), 2, 3);
    refused_in(&rt, amend(&mut table, 3, 1, 8, i32::MIN), 4, 1, 0, 3);
    holds(&rt, &table, 1, 7, 70);
    counts(&rt, amend(&mut table, 3, 1, 8, -80), 3);
    holds(&rt, &table, 1, 8, -80);
}

#[test]
fn striking_moves_the_later_ones_down(rt: HostRuntime) {
    let mut table = [target(5, 50), target(7, 70), target(9, 90)];
    counts(&rt, strike(&mut table, 3, 0), 2);
    holds(&rt, &table, 0, 7, 70);
    holds(&rt, &table, 1, 9, 90);
    holds(&rt, &table, 2, 9, 90);
    refused(&rt, strike(&mut table, 2, 2), 2, 2);
}

#[test]
fn a_table_that_is_not_theirs_is_refused(rt: HostRuntime) {
    let mut table = [target(5, 50), target(5, 70)];
    refused(&rt, put(&mut table, 2, 9, 0), 1, 2);
    refused(&rt, amend(&mut table, 2, 1, 9, 0), 1, 1);
    refused(&rt, strike(&mut table, 3, 0), 1, 0);
    holds(&rt, &table, 1, 5, 70);
}
