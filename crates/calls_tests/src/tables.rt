//! Deliveries on a closed docket: with its own table, with another's, and with targets.
use crate::asking::*;
use docket::docket::{ClosedDocket, OpenDocket};
use figure::report::{Report, Verdict};
use figure::request::Request;
use recording::refusal::{Reason, Refusal};
use recording::sample::Sample;
use response::service::Service;
use response::settings::Settings;
use response::switching::Switching;
use response::variable::Variable;
use std::process::Abort;
use std::test::Fail;
use timeline::target::Target;

// The worked record: 1,360 W for R6.
fn record_a() -> [Sample; 4] {
    [
        sample(5_000, 50_000, 0),
        sample(20_000, 49_850, 0),
        sample(20_050, 49_750, 1_000),
        sample(20_100, 50_250, 1_000),
    ]
}

// A docket closed on the worked record.
fn closed(table: &mut [Sample]) -> Result<ClosedDocket, Refusal> {
    let mut docket = OpenDocket::new();
    for s in record_a() {
        let _ = docket.put(table, reading(s.time, s.frequency, s.power))?;
    }
    Ok(docket.close(table)?)
}

// R6 on that docket, with a table.
fn delivered(table: &[Sample]) -> Result<Result<Report, Refusal>, Fail> {
    let docket = closed(&mut [BLANK; 4])?;
    let settings = Settings::plain();
    let rule = Variable {
        response: settings.response,
        rate: settings.response.rate,
    };
    Ok(docket.deliver(table, request(&settings, &rule, Service::R6, 0)))
}

// The table is refused, whatever else it holds.
fn is_refused(rt: &impl Abort, table: &[Sample]) -> Result<(), Fail> {
    assert_eq!(rt; delivered(table)?, Err(refusal(Reason::OtherTable, 0)));
    Ok(())
}

// The table is checked before the amount, and the amount before anything else.
#[test]
fn the_table_is_asked_for_first(rt: HostRuntime) -> Result<(), Fail> {
    let docket = closed(&mut [BLANK; 4])?;
    let settings = Settings::plain();
    let rule = Switching {
        response: settings.response,
    };
    let below_zero = request(&settings, &rule, Service::L6, -1);
    assert_eq!(rt;
        docket.deliver(&[BLANK; 4], below_zero),
        Err(refusal(Reason::OtherTable, 0))
    );
    assert_eq!(rt;
        docket.deliver(&record_a(), below_zero),
        Err(refusal(Reason::AmountOutside, 0))
    );
    Ok(())
}

// The target rises from 0 W at the base sample to 500 W at the disturbance, and so does the base.
// The responses are -500, -480 at the disturbance, and 500: (490 + 13,000)/75 = 179.87, times 2.
// With one target counted, the disturbance is after the last; the table holds no third.
#[test]
fn targets_are_followed(rt: HostRuntime) -> Result<(), Fail> {
    let docket = closed(&mut [BLANK; 4])?;
    let settings = Settings::plain();
    let rule = Variable {
        response: settings.response,
        rate: settings.response.rate,
    };
    let targets = [
        Target {
            time: 5_000,
            power: 0,
        },
        Target {
            time: 20_001,
            power: 500,
        },
    ];
    let aimed = Request {
        targets: &targets,
        count: 2,
        ..request(&settings, &rule, Service::R6, 360)
    };
    let table = record_a();
    assert_eq!(rt;
        docket.deliver(&table, aimed),
        Ok(report(20_076, 360, Verdict::Level))
    );
    let one = Request { count: 1, ..aimed };
    assert_eq!(rt;
        docket.deliver(&table, one),
        Err(refusal(Reason::OutsideTargets, 0))
    );
    let three = Request { count: 3, ..aimed };
    assert_eq!(rt;
        docket.deliver(&table, three),
        Err(refusal(Reason::OtherTargets, 0))
    );
    Ok(())
}

// Its own table, also with places behind the count that hold anything.
#[test]
fn its_own_table(rt: HostRuntime) -> Result<(), Fail> {
    let expected = Ok(report(20_076, 1_360, Verdict::Met));
    assert_eq!(rt; delivered(&record_a())?, expected);
    let [a, b, c, d] = record_a();
    assert_eq!(rt; delivered(&[a, b, c, d, BLANK, a])?, expected);
    Ok(())
}

// Twice the power, with the same disturbance: the engine cannot tell the table from the docket's,
// and its own figure is delivered. Level from the third sample on: (49,980 + 52,000)/75 = 1,359.73,
// times 2.
#[test]
fn another_table_with_the_same_disturbance(rt: HostRuntime) -> Result<(), Fail> {
    let [a, b, _, d] = record_a();
    let answer = delivered(&[a, b, sample(20_050, 49_750, 2_000), d])?;
    assert_eq!(rt; answer, Ok(report(20_076, 2_719, Verdict::Met)));
    Ok(())
}

#[test]
fn tables_that_are_refused(rt: HostRuntime) -> Result<(), Fail> {
    let [a, b, c, d] = record_a();
    // fewer places than the count
    is_refused(&rt, &[a, b, c])?;
    // a field outside its limits
    is_refused(&rt, &[a, b, c, sample(20_100, 52_001, 1_000)])?;
    // out of order
    is_refused(&rt, &[b, a, c, d])?;
    // no disturbance
    is_refused(
        &rt,
        &[a, b, sample(20_050, 50_000, 0), sample(20_100, 50_000, 0)],
    )?;
    // another disturbance time: the line falls by 1 mHz a ms from 49,900, below 49,850 at 20,051
    is_refused(
        &rt,
        &[
            a,
            sample(20_000, 49_900, 0),
            sample(20_100, 49_800, 0),
            sample(20_200, 50_250, 0),
        ],
    )?;
    // the other side, at the same time
    is_refused(
        &rt,
        &[
            a,
            sample(20_000, 50_150, 0),
            sample(20_050, 50_250, 0),
            sample(20_100, 49_750, 0),
        ],
    )
}
