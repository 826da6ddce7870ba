//! A table that is not the docket's: it has too few places, or what is counted breaks limits or
//! order.
use crate::expected::*;
use crate::records::*;
use docket::docket::OpenDocket;
use recording::sample::Sample;
use std::process::Abort;
use std::test::Fail;

// Every call on the table is refused, whatever else is wrong with it. Put refuses at the count, 3,
// amend and strike at the place given, load at none. Close hands the docket back, by `handed_back`.
fn is_refused_by_all(rt: &impl Abort, docket: &mut OpenDocket, other: &mut [Sample]) {
    refused(rt, docket.put(other, steady(400)), 1, 3);
    refused(rt, docket.put(other, reading(400, 46_999, 0)), 1, 3);
    refused(rt, docket.amend(other, 9, reading(400, 46_999, 0)), 1, 9);
    refused(rt, docket.strike(other, 9), 1, 9);
    refused(rt, docket.load(other, &whole(&[0])), 1, 0);
}

#[test]
fn too_few_places(rt: HostRuntime) -> Result<(), Fail> {
    let mut table = [BLANK; 4];
    let mut other = [sample(100, 50_000, 0), sample(200, 50_000, 0)];
    let mut docket = three(&rt, &mut table);
    is_refused_by_all(&rt, &mut docket, &mut other);
    let mut docket = handed_back(&rt, docket, &other, 1)?;
    holds_steady(&rt, &other, 1, 200);
    counts(&rt, docket.put(&mut table, steady(400)), 4);
    Ok(())
}

// A table with exactly the counted places has no free one.
#[test]
fn just_enough_places(rt: HostRuntime) {
    let mut table = [BLANK; 4];
    let mut docket = three(&rt, &mut table);
    refused(&rt, docket.put(&mut table[0..3], steady(400)), 5, 3);
    counts(&rt, docket.strike(&mut table[0..3], 0), 2);
}

#[test]
fn a_blank_table(rt: HostRuntime) -> Result<(), Fail> {
    let mut table = [BLANK; 4];
    let mut other = [BLANK; 4];
    let mut docket = three(&rt, &mut table);
    is_refused_by_all(&rt, &mut docket, &mut other);
    let mut docket = handed_back(&rt, docket, &other, 1)?;
    is_blank(&rt, &other, 0);
    is_blank(&rt, &other, 3);
    counts(&rt, docket.put(&mut table, steady(400)), 4);
    Ok(())
}

#[test]
fn equal_and_falling_times(rt: HostRuntime) {
    let mut table = [BLANK; 3];
    let mut docket = three(&rt, &mut table);
    let first = sample(1, 50_000, 0);
    let second = sample(2, 50_000, 0);
    is_refused_by_all(&rt, &mut docket, &mut [first, second, second]);
    is_refused_by_all(&rt, &mut docket, &mut [second, first, sample(3, 50_000, 0)]);
}

// The last counted sample has one field just outside.
#[test]
fn a_field_outside_its_limits(rt: HostRuntime) {
    let mut table = [BLANK; 3];
    let mut docket = three(&rt, &mut table);
    let a = sample(1, 50_000, 0);
    let b = sample(2, 50_000, 0);
    is_refused_by_all(&rt, &mut docket, &mut [a, b, sample(1_200_001, 50_000, 0)]);
    is_refused_by_all(&rt, &mut docket, &mut [a, b, sample(3, 52_001, 0)]);
    is_refused_by_all(
        &rt,
        &mut docket,
        &mut [a, b, sample(3, 50_000, -1_000_000_001)],
    );
}

// The places from the count on belong to the caller and are not looked at.
#[test]
fn a_new_docket_takes_any_table(rt: HostRuntime) {
    let late = sample(500, 50_000, 0);
    let mut table = [late, BLANK, late];
    let mut docket = OpenDocket::new();
    counts(&rt, docket.put(&mut table, steady(7)), 1);
    holds_steady(&rt, &table, 0, 7);
    is_blank(&rt, &table, 1);
    holds_steady(&rt, &table, 2, 500);
}
