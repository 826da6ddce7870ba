//! Services by their codes.
use disturbance::direction::Direction;
use recording::refusal::{Reason, Refusal};
use response::group::{Group, Row, Window};
use response::service::{Service, Side};
use std::process::Abort;
use std::test::Fail;

// The refusal of a text that is not the code of a service. Written out, since a constant cannot
// call a function.
const UNKNOWN: Refusal = Refusal {
    reason: Reason::UnknownCode,
    place: 0,
    position: 0,
};

// The code is that of the service, which has this side, group and second window's end.
fn known(rt: &impl Abort, code: &str, service: Service, side: Side, group: Group, end: u32) {
    assert_eq!(rt; Service::from_code(code), Ok(service));
    assert_eq!(rt; code.parse::<Service>(), Ok(service));
    assert_eq!(rt; service.code(), code);
    assert_eq!(rt; service.side(), side);
    assert_eq!(rt; service.group(), group);
    assert_eq!(rt; service.group().row().second.end, end);
}

#[test]
fn every_code(rt: HostRuntime) {
    known(&rt, "R6", Service::R6, Side::Raise, Group::Fast, 60_000);
    known(&rt, "R60", Service::R60, Side::Raise, Group::Slow, 300_000);
    known(&rt, "R5", Service::R5, Side::Raise, Group::Delayed, 900_000);
    known(&rt, "L6", Service::L6, Side::Lower, Group::Fast, 60_000);
    known(&rt, "L60", Service::L60, Side::Lower, Group::Slow, 300_000);
    known(&rt, "L5", Service::L5, Side::Lower, Group::Delayed, 900_000);
}

#[test]
fn raise_is_for_low_disturbances_and_lower_for_high_ones(rt: HostRuntime) {
    assert_eq!(rt; Side::Raise.direction(), Direction::Low);
    assert_eq!(rt; Side::Lower.direction(), Direction::High);
}

#[test]
fn a_service_is_shown_as_its_code(rt: HostRuntime) -> Result<(), Fail> {
    let service = Service::L60;
    let shown = format!(in rt.alloc(); "{service}")?;
    assert_eq!(rt; shown.as_str(), "L60");
    Ok(())
}

#[test]
fn other_texts(rt: HostRuntime) {
    assert_eq!(rt; UNKNOWN.number(), 18);
    for text in [
        "r6", "l60", " R6", "R6 ", "", "R", "6", "R600", "R1", "L61", "R6\n", "R 6",
    ] {
        assert_eq!(rt; Service::from_code(text), Err(UNKNOWN));
    }
}

fn window(start: u32, end: u32, multiplier: u32) -> Window {
    Window {
        start,
        end,
        multiplier,
    }
}

#[test]
fn rows(rt: HostRuntime) {
    let to_first_minute = window(6_000, 60_000, 2);
    let to_fifth_minute = window(60_000, 300_000, 2);
    assert_eq!(rt;
        Group::Fast.row(),
        Row {
            first: window(0, 6_000, 2),
            second: to_first_minute,
            widest_gap: 50,
        }
    );
    assert_eq!(rt;
        Group::Slow.row(),
        Row {
            first: to_first_minute,
            second: to_fifth_minute,
            widest_gap: 4_000,
        }
    );
    assert_eq!(rt;
        Group::Delayed.row(),
        Row {
            first: to_fifth_minute,
            second: window(300_000, 900_000, 1),
            widest_gap: 4_000,
        }
    );
}
