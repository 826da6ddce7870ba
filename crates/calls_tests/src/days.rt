//! Days of a plant: recordings of both makes, both rules, and calls that are refused or not
//! offered.
use crate::asking::*;
use calls::answer::Answer;
use calls::call::Call;
use calls::run::{NotOffered, run};
use disturbance::direction::Direction;
use disturbance::disturbance::Disturbance;
use figure::report::Verdict;
use figure::request::{Enablement, Request};
use recording::makes::{ByteRecording, Make};
use recording::refusal::{Reason, Refusal};
use recording::sample::Sample;
use response::chosen::Rule;
use response::service::Service;
use response::settings::{Proposal, Settings};
use response::switching::Switching;
use response::variable::Variable;
use std::test::Fail;

// 49,850 mHz at 20,000 ms, and 0 W.
const WHOLE: [u8; 12] = [0, 0, 0x4e, 0x20, 0, 0, 0xc2, 0xba, 0, 0, 0, 0];

// 49.75 Hz at 20,050 ms and 50.25 Hz at 20,100 ms, both with the float next to 0.001 MW, which is
// 1,000 W.
const FLOATING: [u8; 24] = [
    0, 0, 0x4e, 0x52, 0x42, 0x47, 0, 0, 0x3a, 0x83, 0x12, 0x6f, 0, 0, 0x4e, 0x84, 0x42, 0x49, 0, 0,
    0x3a, 0x83, 0x12, 0x6f,
];

// The settings whose ramp is the fastest.
const FAST: Proposal = Proposal {
    rate: 10_000,
    reference_dip: 500,
    dead_band: 150,
    switch_dip: 200,
    base_begin: 20_000,
    base_end: 8_000,
};

type Calls<'a> = [Call<'a, ByteRecording<'a>, Rule>; 17];

// The four samples of the worked record, put and loaded; R6 by either rule, and L6; then the last
// sample amended, and the third one struck, so that the line rises from 49,850 at 20,000 by 4 mHz a
// ms: above 50,150 at 20,076.
fn day<'a>(
    whole: &'a ByteRecording<'a>,
    floating: &'a ByteRecording<'a>,
    variable: Request<'a, Rule>,
    switching: Request<'a, Rule>,
) -> Calls<'a> {
    let lower = Request {
        enablement: Enablement {
            service: Service::L6,
            watts: 0,
        },
        ..variable
    };
    [
        Call::Put(reading(5_000, 50_000, 0)),
        Call::Load(whole),
        Call::Load(floating),
        Call::Close,
        Call::Deliver(variable),
        Call::Deliver(switching),
        Call::Deliver(lower),
        Call::Reopen,
        Call::Amend(3, reading(20_100, 50_250, 3_000)),
        Call::Strike(9),
        Call::Close,
        Call::Deliver(variable),
        Call::Reopen,
        Call::Strike(2),
        Call::Close,
        Call::Deliver(variable),
        Call::Put(reading(30_000, 50_000, 0)),
    ]
}

// What they answer: 1,360 W against 1,359, whatever the power after recovery, and 1,679 W by the
// switching rule. After the strike the disturbance is high. A closed docket does not allow put.
fn answers() -> [Answer; 16] {
    let low = Answer::Closed(Disturbance {
        time: 20_001,
        direction: Direction::Low,
    });
    let high = Answer::Closed(Disturbance {
        time: 20_076,
        direction: Direction::High,
    });
    let met = Answer::Reported(report(20_076, 1_360, Verdict::Met));
    [
        Answer::Counted(1),
        Answer::Counted(2),
        Answer::Counted(4),
        low,
        met,
        Answer::Reported(report(20_076, 1_679, Verdict::Met)),
        refused(Reason::OtherDirection, 0),
        Answer::Reopened,
        Answer::Counted(4),
        refused(Reason::BeyondCount, 9),
        low,
        met,
        Answer::Reopened,
        Answer::Counted(3),
        high,
        refused(Reason::OtherDirection, 0),
    ]
}

// The day on a table of six places, with this number of places for answers.
fn run_day(table: &mut [Sample], told: &mut [Answer]) -> Result<Result<usize, NotOffered>, Fail> {
    let plain = Settings::plain();
    let fast = Settings::new(FAST)?;
    let whole = ByteRecording::new(Make::Whole, &WHOLE);
    let floating = ByteRecording::new(Make::Floating, &FLOATING);
    let variable = Rule::Variable(Variable {
        response: plain.response,
        rate: plain.response.rate,
    });
    let switching = Rule::Switching(Switching {
        response: fast.response,
    });
    let calls = day(
        &whole,
        &floating,
        request(&plain, &variable, Service::R6, 1_359),
        request(&fast, &switching, Service::R6, 0),
    );
    Ok(run(table, &calls, told))
}

#[test]
fn a_day_with_both_makes_and_both_rules(rt: HostRuntime) -> Result<(), Fail> {
    let mut table = [BLANK; 6];
    let mut told = [UNANSWERED; 17];
    assert_eq!(rt;
        run_day(&mut table, &mut told)?,
        Err(NotOffered { place: 16 })
    );
    assert_eq!(rt; told.split_at(16).0, answers().as_slice());
    assert_eq!(rt; told[16], UNANSWERED);
    Ok(())
}

// The strike moved the last sample down; its former place still holds it, and the rest was never
// written.
#[test]
fn the_table_after_the_day(rt: HostRuntime) -> Result<(), Fail> {
    let mut table = [BLANK; 6];
    let _ = run_day(&mut table, &mut [UNANSWERED; 17])?;
    let last = sample(20_100, 50_250, 3_000);
    let expected = [
        sample(5_000, 50_000, 0),
        sample(20_000, 49_850, 0),
        last,
        last,
        BLANK,
        BLANK,
    ];
    assert_eq!(rt; table, expected);
    Ok(())
}

// With three places for answers three calls are run: two samples are loaded, and nothing is closed.
#[test]
fn no_more_calls_than_places_for_answers(rt: HostRuntime) -> Result<(), Fail> {
    let mut table = [BLANK; 6];
    let mut told = [UNANSWERED; 3];
    assert_eq!(rt; run_day(&mut table, &mut told)?, Ok(3));
    assert_eq!(rt; told.as_slice(), answers().split_at(3).0);
    let floating = sample(20_050, 49_750, 1_000);
    let last = sample(20_100, 50_250, 1_000);
    let expected = [
        sample(5_000, 50_000, 0),
        sample(20_000, 49_850, 0),
        floating,
        last,
        BLANK,
        BLANK,
    ];
    assert_eq!(rt; table, expected);
    Ok(())
}

// An open docket does not allow deliver, and the run ends before the put after it.
#[test]
fn an_open_docket_offers_no_deliver(rt: HostRuntime) -> Result<(), Fail> {
    let plain = Settings::plain();
    let rule = Switching {
        response: plain.response,
    };
    let calls: [Call<ByteRecording, Switching>; 3] = [
        Call::Put(reading(5_000, 50_000, 0)),
        Call::Deliver(request(&plain, &rule, Service::R6, 0)),
        Call::Put(reading(6_000, 50_000, 0)),
    ];
    let mut table = [BLANK; 2];
    let mut told = [UNANSWERED; 3];
    assert_eq!(rt;
        run(&mut table, &calls, &mut told),
        Err(NotOffered { place: 1 })
    );
    assert_eq!(rt; told, [Answer::Counted(1), UNANSWERED, UNANSWERED]);
    assert_eq!(rt; table, [sample(5_000, 50_000, 0), BLANK]);
    Ok(())
}

// An open docket does not allow reopen, nor a closed one close.
#[test]
fn each_state_offers_its_own_calls(rt: HostRuntime) -> Result<(), Fail> {
    let reopened: [Call<ByteRecording, Switching>; 1] = [Call::Reopen];
    let mut told = [UNANSWERED; 4];
    assert_eq!(rt;
        run(&mut [BLANK; 2], &reopened, &mut told),
        Err(NotOffered { place: 0 })
    );
    let closed: [Call<ByteRecording, Switching>; 4] = [
        Call::Put(reading(100, 49_850, 0)),
        Call::Put(reading(150, 49_849, 0)),
        Call::Close,
        Call::Close,
    ];
    assert_eq!(rt;
        run(&mut [BLANK; 2], &closed, &mut told),
        Err(NotOffered { place: 3 })
    );
    let low = Disturbance {
        time: 101,
        direction: Direction::Low,
    };
    assert_eq!(rt;
        told,
        [
            Answer::Counted(1),
            Answer::Counted(2),
            Answer::Closed(low),
            UNANSWERED
        ]
    );
    Ok(())
}

// The second member of the recording is at the time of the first: none is taken, and the run goes
// on.
#[test]
fn a_load_is_refused_inside_a_list(rt: HostRuntime) -> Result<(), Fail> {
    let mut twice = [0; 24];
    for place in 0..12 {
        twice[place] = WHOLE[place];
        twice[place + 12] = WHOLE[place];
    }
    let recording = ByteRecording::new(Make::Whole, &twice);
    let calls: [Call<ByteRecording, Switching>; 2] = [
        Call::Load(&recording),
        Call::Put(reading(5_000, 50_000, 0)),
    ];
    let mut table = [BLANK; 3];
    let mut told = [UNANSWERED; 2];
    assert_eq!(rt; run(&mut table, &calls, &mut told), Ok(2));
    let refusal = Refusal {
        reason: Reason::OutOfOrder,
        place: 1,
        position: 12,
    };
    assert_eq!(rt; told, [Answer::Refused(refusal), Answer::Counted(1)]);
    assert_eq!(rt; table, [sample(5_000, 50_000, 0), BLANK, BLANK]);
    Ok(())
}

// Refused calls change nothing: the second put is too early, the third finds no place.
#[test]
fn refused_calls_change_nothing(rt: HostRuntime) -> Result<(), Fail> {
    let calls: [Call<ByteRecording, Switching>; 5] = [
        Call::Put(reading(5_000, 50_000, 0)),
        Call::Put(reading(5_000, 50_000, 1)),
        Call::Put(reading(6_000, 50_000, 2)),
        Call::Put(reading(7_000, 50_000, 3)),
        Call::Close,
    ];
    let mut table = [BLANK; 2];
    let mut told = [UNANSWERED; 5];
    assert_eq!(rt; run(&mut table, &calls, &mut told), Ok(5));
    let expected = [
        Answer::Counted(1),
        refused(Reason::OutOfOrder, 1),
        Answer::Counted(2),
        refused(Reason::Full, 2),
        refused(Reason::NoDisturbance, 0),
    ];
    assert_eq!(rt; told, expected);
    assert_eq!(rt; table, [sample(5_000, 50_000, 0), sample(6_000, 50_000, 2)]);
    Ok(())
}

#[test]
fn no_calls_change_nothing(rt: HostRuntime) -> Result<(), Fail> {
    let calls: [Call<ByteRecording, Switching>; 0] = [];
    let mut table = [BLANK; 1];
    let mut told = [UNANSWERED];
    assert_eq!(rt; run(&mut table, &calls, &mut told), Ok(0));
    assert_eq!(rt; (table, told), ([BLANK], [UNANSWERED]));
    Ok(())
}
