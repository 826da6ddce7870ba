//! The greatest count, 4,096, in tables with fewer places, with exactly that many and with one
//! more.
use crate::expected::*;
use crate::records::*;
use docket::docket::OpenDocket;
use recording::sample::Sample;
use std::alloc::{AllocError, Global};
use std::test::Fail;

// A recording of this many steady members, one every 100 ms.
fn long_recording(heap: Global, members: u16) -> Result<Vec<u8>, AllocError> {
    let mut bytes = Vec::new(heap);
    for k in 0..members {
        add_record(&mut bytes, 100 * k as u32, 50_000, 0)?;
    }
    Ok(bytes)
}

fn blank_table(heap: Global, places: usize) -> Result<Vec<Sample>, AllocError> {
    vec![in heap; BLANK; places]
}

// The last free place is put, then no more, though the table has one place more.
#[test]
fn a_table_with_one_place_more_than_4096(rt: HostRuntime) -> Result<(), Fail> {
    let mut table = blank_table(rt.alloc(), 4_097)?;
    let mut docket = OpenDocket::new();
    let bytes = long_recording(rt.alloc(), 4_095)?;
    counts(&rt, docket.load(&mut table, &whole(&bytes)), 4_095);
    is_blank(&rt, &table, 4_095);
    counts(&rt, docket.put(&mut table, steady(409_500)), 4_096);
    refused(&rt, docket.put(&mut table, steady(409_600)), 5, 4_096);
    holds_steady(&rt, &table, 4_095, 409_500);
    is_blank(&rt, &table, 4_096);
    Ok(())
}

// After a strike at either end, the former last sample is still at the place of the new count.
#[test]
fn a_table_with_exactly_4096_places(rt: HostRuntime) -> Result<(), Fail> {
    let mut table = blank_table(rt.alloc(), 4_096)?;
    let mut docket = OpenDocket::new();
    let bytes = long_recording(rt.alloc(), 4_096)?;
    counts(&rt, docket.load(&mut table, &whole(&bytes)), 4_096);
    refused(&rt, docket.put(&mut table, steady(409_600)), 5, 4_096);
    counts(&rt, docket.strike(&mut table, 4_095), 4_095);
    holds_steady(&rt, &table, 4_095, 409_500);
    counts(&rt, docket.strike(&mut table, 0), 4_094);
    holds_steady(&rt, &table, 0, 100);
    holds_steady(&rt, &table, 4_093, 409_400);
    holds_steady(&rt, &table, 4_094, 409_400);
    Ok(())
}

// One member too many refuses the whole load, at place 4,096 and byte 49,152.
#[test]
fn a_recording_of_4097_members(rt: HostRuntime) -> Result<(), Fail> {
    let mut table = blank_table(rt.alloc(), 4_097)?;
    let mut docket = OpenDocket::new();
    let bytes = long_recording(rt.alloc(), 4_097)?;
    refused_in(
        &rt,
        docket.load(&mut table, &whole(&bytes)),
        5,
        4_096,
        49_152,
        0,
    );
    is_blank(&rt, &table, 0);
    is_blank(&rt, &table, 4_096);
    counts(&rt, docket.put(&mut table, steady(0)), 1);
    Ok(())
}

// With 4,095 places the table is full one member earlier.
#[test]
fn a_table_with_one_place_fewer_than_4096(rt: HostRuntime) -> Result<(), Fail> {
    let mut table = blank_table(rt.alloc(), 4_095)?;
    let mut docket = OpenDocket::new();
    let bytes = long_recording(rt.alloc(), 4_096)?;
    refused_in(
        &rt,
        docket.load(&mut table, &whole(&bytes)),
        5,
        4_095,
        49_140,
        0,
    );
    is_blank(&rt, &table, 4_094);
    let shorter = long_recording(rt.alloc(), 4_095)?;
    counts(&rt, docket.load(&mut table, &whole(&shorter)), 4_095);
    holds_steady(&rt, &table, 4_094, 409_400);
    Ok(())
}
