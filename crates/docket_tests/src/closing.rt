//! Closing a docket on its disturbance, and opening it again.
use crate::expected::*;
use crate::records::*;
use disturbance::direction::Direction;
use disturbance::disturbance::Disturbance;
use docket::docket::{ClosedDocket, Kept, OpenDocket};
use recording::sample::Sample;
use std::process::Abort;
use std::test::Fail;

// The docket is closed, with the disturbance at the time and in the direction.
fn closes(
    rt: &impl Abort,
    docket: OpenDocket,
    table: &[Sample],
    time: u32,
    direction: Direction,
) -> Result<ClosedDocket, Fail> {
    match docket.close(table) {
        Ok(closed) => {
            assert_eq!(rt; closed.disturbance(), Disturbance { time, direction });
            Ok(closed)
        }
        Err(Kept { docket: _, refusal }) => Err(refusal.into()),
    }
}

// There is no disturbance, and the docket is handed back.
fn stays_open(rt: &impl Abort, docket: OpenDocket, table: &[Sample]) -> Result<OpenDocket, Fail> {
    handed_back(rt, docket, table, 7)
}

// A docket with two samples, at 100 and 150 ms.
fn pair(rt: &impl Abort, table: &mut [Sample], first: u32, second: u32) -> OpenDocket {
    let mut docket = OpenDocket::new();
    counts(rt, docket.put(table, reading(100, first, 0)), 1);
    counts(rt, docket.put(table, reading(150, second, 0)), 2);
    docket
}

// 49,850 falling by 2 a ms.
#[test]
fn record_a_is_low_at_20001(rt: HostRuntime) -> Result<(), Fail> {
    let mut table = [BLANK; 5];
    let mut docket = OpenDocket::new();
    counts(&rt, docket.put(&mut table, reading(5_000, 50_000, 0)), 1);
    counts(&rt, docket.put(&mut table, reading(20_000, 49_850, 0)), 2);
    counts(
        &rt,
        docket.put(&mut table, reading(20_050, 49_750, 1_000)),
        3,
    );
    counts(
        &rt,
        docket.put(&mut table, reading(20_100, 50_250, 1_000)),
        4,
    );
    let _closed = closes(&rt, docket, &table, 20_001, Direction::Low)?;
    Ok(())
}

// A recording that is loaded and closed: 2 a ms up from 50,000, on the edge after 75 ms.
#[test]
fn a_loaded_recording_is_closed(rt: HostRuntime) -> Result<(), Fail> {
    let mut table = [BLANK; 3];
    let mut docket = OpenDocket::new();
    let mut bytes = records_at(rt.alloc(), &[0, 1_000])?;
    add_record(&mut bytes, 1_100, 50_200, 0)?;
    counts(&rt, docket.load(&mut table, &whole(&bytes)), 3);
    let _closed = closes(&rt, docket, &table, 1_076, Direction::High)?;
    Ok(())
}

#[test]
fn the_first_pair_may_be_the_one(rt: HostRuntime) -> Result<(), Fail> {
    let mut table = [BLANK; 2];
    let docket = pair(&rt, &mut table, 49_850, 49_849);
    let _closed = closes(&rt, docket, &table, 101, Direction::Low)?;
    let docket = pair(&rt, &mut table, 50_150, 50_151);
    let _closed = closes(&rt, docket, &table, 101, Direction::High)?;
    Ok(())
}

// 6 a ms: on the edge, and inside, after 25 ms.
#[test]
fn a_line_on_the_edge_is_inside(rt: HostRuntime) -> Result<(), Fail> {
    let mut table = [BLANK; 2];
    let docket = pair(&rt, &mut table, 50_000, 49_700);
    let _closed = closes(&rt, docket, &table, 126, Direction::Low)?;
    let docket = pair(&rt, &mut table, 50_000, 50_300);
    let _closed = closes(&rt, docket, &table, 126, Direction::High)?;
    Ok(())
}

#[test]
fn both_edges_are_no_disturbance(rt: HostRuntime) -> Result<(), Fail> {
    let mut table = [BLANK; 2];
    let docket = pair(&rt, &mut table, 49_850, 50_150);
    let _docket = stays_open(&rt, docket, &table)?;
    Ok(())
}

#[test]
fn outside_low_straight_to_outside_high_is_none(rt: HostRuntime) -> Result<(), Fail> {
    let mut table = [BLANK; 2];
    let docket = pair(&rt, &mut table, 49_000, 51_000);
    let _docket = stays_open(&rt, docket, &table)?;
    Ok(())
}

#[test]
fn an_empty_docket_has_none(rt: HostRuntime) -> Result<(), Fail> {
    let docket = stays_open(&rt, OpenDocket::new(), &[])?;
    let _docket = stays_open(&rt, docket, &[BLANK])?;
    Ok(())
}

// 3 a ms from 50,150 on: past the edge at once.
#[test]
fn a_docket_handed_back_goes_on(rt: HostRuntime) -> Result<(), Fail> {
    let mut table = [BLANK; 3];
    let docket = pair(&rt, &mut table, 50_000, 50_150);
    let mut docket = stays_open(&rt, docket, &table)?;
    counts(&rt, docket.put(&mut table, reading(250, 50_450, 0)), 3);
    let _closed = closes(&rt, docket, &table, 151, Direction::High)?;
    Ok(())
}

// The former last sample is still in the table, but is not counted.
#[test]
fn a_struck_sample_is_no_disturbance(rt: HostRuntime) -> Result<(), Fail> {
    let mut table = [BLANK; 2];
    let mut docket = pair(&rt, &mut table, 50_000, 49_000);
    counts(&rt, docket.strike(&mut table, 1), 1);
    holds(&rt, &table, 1, 150, 49_000, 0);
    let _docket = stays_open(&rt, docket, &table)?;
    Ok(())
}

#[test]
fn a_docket_opened_again_takes_more(rt: HostRuntime) -> Result<(), Fail> {
    let mut table = [BLANK; 3];
    let docket = pair(&rt, &mut table, 49_850, 49_849);
    let mut docket = closes(&rt, docket, &table, 101, Direction::Low)?.reopen();
    counts(&rt, docket.put(&mut table, steady(200)), 3);
    refused(&rt, docket.put(&mut table, steady(250)), 5, 3);
    let _closed = closes(&rt, docket, &table, 101, Direction::Low)?;
    Ok(())
}

// Opened again, its disturbance is amended away: there is none left to close on.
#[test]
fn a_disturbance_is_amended_away(rt: HostRuntime) -> Result<(), Fail> {
    let mut table = [BLANK; 2];
    let docket = pair(&rt, &mut table, 49_850, 49_849);
    let mut docket = closes(&rt, docket, &table, 101, Direction::Low)?.reopen();
    counts(&rt, docket.amend(&mut table, 1, reading(150, 49_850, 0)), 2);
    let mut docket = stays_open(&rt, docket, &table)?;
    counts(&rt, docket.amend(&mut table, 1, reading(150, 50_151, 0)), 2);
    let _closed = closes(&rt, docket, &table, 150, Direction::High)?;
    Ok(())
}
