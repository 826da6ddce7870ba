//! Both windows of each group of services, in records that reach exactly to the end of the second.
use crate::asking::*;
use crate::long::*;
use crate::records::*;
use disturbance::direction::Direction;
use figure::report::Verdict;
use response::service::Service;
use std::test::Fail;

// The weight is 1 for 400 ms, grows by 1/8 at each sample to 3 at 1,200 ms and stays: from 100,000
// W to 300,000 W, (50,000 + 800,000 + 3,000,000 + 96 * 300,000 + 150,000)/120 = 273,333.33, times
// 2. Then from 300,000 W to 105,600 W, 202,800 in the mean, times 2.
#[test]
fn fast_services(rt: HostRuntime) -> Result<(), Fail> {
    let expected = both(None, 546_667, 405_600, 405_600, Verdict::Met);
    delivers(
        &rt,
        variable(plain(&fast_record(Direction::Low)[0..1_203], Service::R6)),
        expected,
    )?;
    delivers(
        &rt,
        variable(plain(&fast_record(Direction::High)[0..1_203], Service::L6)),
        expected,
    )
}

// Three times the power: 3 * 108,250 in the middle of the first window, 3 * 55,000 in that of the
// second, both times 2.
#[test]
fn slow_services(rt: HostRuntime) -> Result<(), Fail> {
    let expected = both(None, 649_500, 330_000, 330_000, Verdict::Met);
    delivers(
        &rt,
        variable(plain(&slow_record(Direction::Low)[0..78], Service::R60)),
        expected,
    )?;
    delivers(
        &rt,
        variable(plain(&slow_record(Direction::High)[0..78], Service::L60)),
        expected,
    )
}

// Three times the power: 3 * 145,000 in the middle of the first window, times 2, and 3 * 100,000 in
// that of the second, times 1.
#[test]
fn delayed_services(rt: HostRuntime) -> Result<(), Fail> {
    let expected = both(None, 870_000, 300_000, 300_000, Verdict::Met);
    delivers(
        &rt,
        variable(plain(&delayed_record(Direction::Low)[0..228], Service::R5)),
        expected,
    )?;
    delivers(
        &rt,
        variable(plain(&delayed_record(Direction::High)[0..228], Service::L5)),
        expected,
    )
}

// The last sample 1 ms before the end of the second window, or on the end of the first.
#[test]
fn a_record_that_ends_earlier_is_refused(rt: HostRuntime) -> Result<(), Fail> {
    let mut fast = fast_record(Direction::Low);
    fast[1_202] = at(80_000, 49_800, 35_260);
    refuses(&rt, variable(plain(&fast[0..1_203], Service::R6)), 15)?;
    refuses(
        &rt,
        variable(plain(&slow_record(Direction::Low)[0..18], Service::R60)),
        15,
    )
}

// At 24,000 the dip of 200 weighs 3: 6,000 W; at 28,000 that of 300 weighs 350/150: 7,000 W.
// 6,500.25 W at 26,001; 1,999 ms to 7,000 W and 1,001 ms level: (13,493,499.875 + 7,007,000)/3,000
// = 6,833.5, times 2.
#[test]
fn an_empty_second_window_has_no_value(rt: HostRuntime) -> Result<(), Fail> {
    let slow = [
        at(5_000, 50_000, 0),
        at(20_000, 49_850, 0),
        at(20_050, 49_750, 1_000),
        at(24_000, 49_800, 2_000),
        at(28_000, 49_700, 3_000),
        at(30_000, 50_300, 0),
    ];
    delivers(
        &rt,
        variable(plain(&slow, Service::R60)),
        met(20_001, 29_001, 13_667),
    )?;
    let delayed = [
        at(5_000, 50_000, 0),
        at(20_000, 49_850, 0),
        at(20_050, 49_750, 1_000),
        at(78_000, 49_800, 2_000),
        at(82_000, 49_700, 3_000),
        at(84_000, 50_300, 0),
    ];
    delivers(
        &rt,
        variable(plain(&delayed, Service::R5)),
        met(20_001, 83_001, 13_667),
    )
}
