//! Replacing the sample at a place.
use crate::expected::*;
use docket::docket::OpenDocket;

#[test]
fn a_neighbours_time_is_refused(rt: HostRuntime) {
    let mut table = [BLANK; 4];
    let mut docket = three(&rt, &mut table);
    refused(&rt, docket.amend(&mut table, 1, steady(100)), 6, 1);
    refused(&rt, docket.amend(&mut table, 1, steady(300)), 6, 1);
    refused(&rt, docket.amend(&mut table, 0, steady(200)), 6, 0);
    refused(&rt, docket.amend(&mut table, 2, steady(200)), 6, 2);
    holds_steady(&rt, &table, 1, 200);
}

#[test]
fn just_inside_the_neighbours_is_accepted(rt: HostRuntime) {
    let mut table = [BLANK; 4];
    let mut docket = three(&rt, &mut table);
    counts(&rt, docket.amend(&mut table, 1, reading(101, 47_000, 1)), 3);
    holds(&rt, &table, 1, 101, 47_000, 1);
    counts(
        &rt,
        docket.amend(&mut table, 1, reading(299, 52_000, -1)),
        3,
    );
    holds(&rt, &table, 1, 299, 52_000, -1);
    holds_steady(&rt, &table, 0, 100);
    holds_steady(&rt, &table, 2, 300);
}

#[test]
fn the_ends_have_one_neighbour(rt: HostRuntime) {
    let mut table = [BLANK; 4];
    let mut docket = three(&rt, &mut table);
    counts(&rt, docket.amend(&mut table, 0, steady(0)), 3);
    counts(&rt, docket.amend(&mut table, 2, steady(1_200_000)), 3);
    holds_steady(&rt, &table, 0, 0);
    holds_steady(&rt, &table, 2, 1_200_000);
}

// An entry at or beyond the count is not a neighbour.
#[test]
fn the_last_sample_may_pass_what_was_struck(rt: HostRuntime) {
    let mut table = [BLANK; 3];
    let mut docket = three(&rt, &mut table);
    counts(&rt, docket.strike(&mut table, 2), 2);
    counts(&rt, docket.amend(&mut table, 1, steady(400)), 2);
    holds_steady(&rt, &table, 1, 400);
    holds_steady(&rt, &table, 2, 300);
}

#[test]
fn at_and_beyond_the_count_is_refused(rt: HostRuntime) {
    let mut table = [BLANK; 4];
    let mut docket = three(&rt, &mut table);
    refused(&rt, docket.amend(&mut table, 3, steady(400)), 2, 3);
    refused(&rt, docket.amend(&mut table, 4, steady(400)), 2, 4);
    refused(
        &rt,
        docket.amend(&mut table, usize::MAX, steady(400)),
        2,
        usize::MAX,
    );
    is_blank(&rt, &table, 3);
}

// The place comes before the fields, the fields before the order.
#[test]
fn the_first_in_the_checking_order_is_told(rt: HostRuntime) {
    let mut table = [BLANK; 4];
    let mut docket = three(&rt, &mut table);
    let slow = reading(100, 46_999, 0);
    let strong = reading(250, 50_000, i32::MAX);
    refused(&rt, docket.amend(&mut table, 3, slow), 2, 3);
    refused_in(&rt, docket.amend(&mut table, 1, slow), 4, 1, 0, 2);
    refused_in(&rt, docket.amend(&mut table, 1, strong), 4, 1, 0, 3);
    holds_steady(&rt, &table, 1, 200);
}

#[test]
fn a_sample_may_be_replaced_at_its_own_time(rt: HostRuntime) {
    let mut table = [BLANK; 1];
    let mut docket = OpenDocket::new();
    counts(&rt, docket.put(&mut table, steady(100)), 1);
    counts(&rt, docket.amend(&mut table, 0, reading(100, 49_000, 7)), 1);
    holds(&rt, &table, 0, 100, 49_000, 7);
}
