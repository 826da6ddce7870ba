//! Loading a recording: all of its members, or none.
use crate::expected::*;
use crate::records::*;
use docket::docket::OpenDocket;
use recording::makes::{ByteRecording, Make};
use recording::sample::Sample;
use std::process::Abort;
use std::test::Fail;

// No place of the table was written, and the docket has no sample: one of time 0 may be put.
fn is_untouched(rt: &impl Abort, docket: &mut OpenDocket, table: &mut [Sample]) {
    for sample in table.iter() {
        assert_eq!(rt; *sample, BLANK);
    }
    counts(rt, docket.put(table, steady(0)), 1);
}

#[test]
fn all_members_are_added_in_order(rt: HostRuntime) -> Result<(), Fail> {
    let mut table = [BLANK; 4];
    let mut docket = OpenDocket::new();
    let mut bytes = Vec::new(rt.alloc());
    add_record(&mut bytes, 10, 47_000, -1_000_000_000)?;
    add_record(&mut bytes, 11, 52_000, 1_000_000_000)?;
    counts(&rt, docket.load(&mut table, &whole(&bytes)), 2);
    holds(&rt, &table, 0, 10, 47_000, -1_000_000_000);
    holds(&rt, &table, 1, 11, 52_000, 1_000_000_000);
    is_blank(&rt, &table, 2);
    Ok(())
}

#[test]
fn a_second_recording_goes_on_after_the_first(rt: HostRuntime) -> Result<(), Fail> {
    let mut table = [BLANK; 3];
    let mut docket = OpenDocket::new();
    let first = records_at(rt.alloc(), &[10])?;
    let second = records_at(rt.alloc(), &[11, 12])?;
    counts(&rt, docket.load(&mut table, &whole(&first)), 1);
    counts(&rt, docket.load(&mut table, &whole(&second)), 3);
    holds_steady(&rt, &table, 0, 10);
    holds_steady(&rt, &table, 1, 11);
    holds_steady(&rt, &table, 2, 12);
    Ok(())
}

// 0x4248_0000 is 50.0 Hz, 0x3c00_0000 is 0.0078125 MW, which is 7,812.5 W.
#[test]
fn a_recording_in_floats_is_loaded_as_its_samples(rt: HostRuntime) -> Result<(), Fail> {
    let mut table = [BLANK; 1];
    let mut docket = OpenDocket::new();
    let mut bytes = Vec::new(rt.alloc());
    add_record(&mut bytes, 10, 0x4248_0000, 0x3c00_0000)?;
    let floating = ByteRecording::new(Make::Floating, &bytes);
    counts(&rt, docket.load(&mut table, &floating), 1);
    holds(&rt, &table, 0, 10, 50_000, 7_813);
    Ok(())
}

#[test]
fn an_empty_recording_adds_none(rt: HostRuntime) {
    let mut table = [BLANK; 3];
    let mut docket = three(&rt, &mut table);
    counts(&rt, docket.load(&mut table, &whole(&[])), 3);
    holds_steady(&rt, &table, 2, 300);
}

// The first member with a fault decides: the second, whose time is the first's, not the leftover
// bytes.
#[test]
fn an_equal_time_comes_before_leftover_bytes(rt: HostRuntime) -> Result<(), Fail> {
    let mut table = [BLANK; 4];
    let mut docket = OpenDocket::new();
    let mut bytes = records_at(rt.alloc(), &[10, 10])?;
    bytes.push(0)?;
    refused_in(&rt, docket.load(&mut table, &whole(&bytes)), 6, 1, 12, 0);
    is_untouched(&rt, &mut docket, &mut table);
    Ok(())
}

#[test]
fn leftover_bytes_send_all_back(rt: HostRuntime) -> Result<(), Fail> {
    let mut table = [BLANK; 4];
    let mut docket = OpenDocket::new();
    let mut bytes = records_at(rt.alloc(), &[10, 11])?;
    bytes.push(0)?;
    refused_in(&rt, docket.load(&mut table, &whole(&bytes)), 3, 2, 24, 0);
    is_untouched(&rt, &mut docket, &mut table);
    Ok(())
}

#[test]
fn a_field_outside_in_the_middle_sends_all_back(rt: HostRuntime) -> Result<(), Fail> {
    let mut table = [BLANK; 4];
    let mut docket = OpenDocket::new();
    let mut bytes = records_at(rt.alloc(), &[10])?;
    add_record(&mut bytes, 11, 50_000, 1_000_000_001)?;
    add_record(&mut bytes, 12, 50_000, 0)?;
    refused_in(&rt, docket.load(&mut table, &whole(&bytes)), 4, 1, 12, 3);
    is_untouched(&rt, &mut docket, &mut table);
    Ok(())
}

// The fields come before the order, also within one member.
#[test]
fn a_member_with_two_faults_has_the_lower_number(rt: HostRuntime) -> Result<(), Fail> {
    let mut table = [BLANK; 4];
    let mut docket = OpenDocket::new();
    let mut bytes = records_at(rt.alloc(), &[10])?;
    add_record(&mut bytes, 9, 46_999, 0)?;
    refused_in(&rt, docket.load(&mut table, &whole(&bytes)), 4, 1, 12, 2);
    is_untouched(&rt, &mut docket, &mut table);
    Ok(())
}

#[test]
fn the_first_member_comes_after_the_last_sample(rt: HostRuntime) -> Result<(), Fail> {
    let mut table = [BLANK; 6];
    let mut docket = three(&rt, &mut table);
    let equal = records_at(rt.alloc(), &[300, 400])?;
    refused(&rt, docket.load(&mut table, &whole(&equal)), 6, 0);
    is_blank(&rt, &table, 3);
    let later = records_at(rt.alloc(), &[301, 400])?;
    counts(&rt, docket.load(&mut table, &whole(&later)), 5);
    Ok(())
}

#[test]
fn the_member_without_a_place_is_named(rt: HostRuntime) -> Result<(), Fail> {
    let mut table = [BLANK; 3];
    let mut docket = OpenDocket::new();
    counts(&rt, docket.put(&mut table, steady(5)), 1);
    let bytes = records_at(rt.alloc(), &[10, 11, 12])?;
    refused_in(&rt, docket.load(&mut table, &whole(&bytes)), 5, 2, 24, 0);
    holds_steady(&rt, &table, 0, 5);
    is_blank(&rt, &table, 1);
    is_blank(&rt, &table, 2);
    counts(&rt, docket.put(&mut table, steady(6)), 2);
    Ok(())
}

#[test]
fn on_a_full_table_a_member_is_still_looked_at_first(rt: HostRuntime) -> Result<(), Fail> {
    let mut table = [BLANK; 3];
    let mut docket = three(&rt, &mut table);
    let good = records_at(rt.alloc(), &[400])?;
    refused(&rt, docket.load(&mut table, &whole(&good)), 5, 0);
    let cut = [0; 11];
    refused(&rt, docket.load(&mut table, &whole(&cut)), 3, 0);
    let mut bad = Vec::new(rt.alloc());
    add_record(&mut bad, 400, 52_001, 0)?;
    refused_in(&rt, docket.load(&mut table, &whole(&bad)), 4, 0, 0, 2);
    holds_steady(&rt, &table, 2, 300);
    Ok(())
}
