//! Removing a sample.
use crate::expected::*;
use docket::docket::OpenDocket;

// The later ones move down by one; the former last one is still at the place of the new count.
#[test]
fn the_first_is_taken_out(rt: HostRuntime) {
    let mut table = [BLANK; 4];
    let mut docket = three(&rt, &mut table);
    counts(&rt, docket.strike(&mut table, 0), 2);
    holds_steady(&rt, &table, 0, 200);
    holds_steady(&rt, &table, 1, 300);
    holds_steady(&rt, &table, 2, 300);
    is_blank(&rt, &table, 3);
}

#[test]
fn the_middle_is_taken_out(rt: HostRuntime) {
    let mut table = [BLANK; 4];
    let mut docket = three(&rt, &mut table);
    counts(&rt, docket.strike(&mut table, 1), 2);
    holds_steady(&rt, &table, 0, 100);
    holds_steady(&rt, &table, 1, 300);
    holds_steady(&rt, &table, 2, 300);
    is_blank(&rt, &table, 3);
}

#[test]
fn the_last_is_taken_out(rt: HostRuntime) {
    let mut table = [BLANK; 4];
    let mut docket = three(&rt, &mut table);
    counts(&rt, docket.strike(&mut table, 2), 2);
    holds_steady(&rt, &table, 0, 100);
    holds_steady(&rt, &table, 1, 200);
    holds_steady(&rt, &table, 2, 300);
    is_blank(&rt, &table, 3);
}

#[test]
fn at_and_beyond_the_count_is_refused(rt: HostRuntime) {
    let mut table = [BLANK; 4];
    let mut docket = three(&rt, &mut table);
    refused(&rt, docket.strike(&mut table, 3), 2, 3);
    refused(&rt, docket.strike(&mut table, usize::MAX), 2, usize::MAX);
    counts(&rt, docket.strike(&mut table, 2), 2);
    refused(&rt, docket.strike(&mut table, 2), 2, 2);
    holds_steady(&rt, &table, 2, 300);
}

#[test]
fn an_empty_docket_has_none_to_take_out(rt: HostRuntime) {
    let mut table = [BLANK; 2];
    let mut docket = OpenDocket::new();
    refused(&rt, docket.strike(&mut table, 0), 2, 0);
    refused(&rt, docket.strike(&mut [], 0), 2, 0);
}

// A place that was given free is used again, and its time with it.
#[test]
fn all_are_taken_out_and_one_put(rt: HostRuntime) {
    let mut table = [BLANK; 3];
    let mut docket = three(&rt, &mut table);
    counts(&rt, docket.strike(&mut table, 0), 2);
    counts(&rt, docket.strike(&mut table, 0), 1);
    counts(&rt, docket.strike(&mut table, 0), 0);
    counts(&rt, docket.put(&mut table, steady(50)), 1);
    holds_steady(&rt, &table, 0, 50);
    holds_steady(&rt, &table, 1, 300);
    holds_steady(&rt, &table, 2, 300);
}
