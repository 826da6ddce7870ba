//! What the examples share: readings, tables and the checks of answers.
use docket::docket::{Kept, OpenDocket};
use recording::reading::{Reading, WholeReading};
use recording::refusal::Refusal;
use recording::sample::Sample;
use std::fmt::Debug;
use std::process::Abort;
use std::test::Fail;

/// What a caller's table may hold before it is used: no sample, with every field outside its
/// limits.
pub const BLANK: Sample = Sample {
    time: u32::MAX,
    frequency: 0,
    power: i32::MIN,
};

pub(crate) fn reading(time: u32, frequency: u32, power: i32) -> Reading {
    Reading::Whole(WholeReading {
        time,
        frequency,
        power,
    })
}

// A reading of which only the time matters.
pub(crate) fn steady(time: u32) -> Reading {
    reading(time, 50_000, 0)
}

// The call was accepted and answers this count.
pub(crate) fn counts(rt: &impl Abort, answer: Result<usize, Refusal>, count: usize) {
    assert_eq!(rt; answer, Ok(count));
}

// A refusal in plain numbers.
#[derive(Clone, Copy, Debug, PartialEq)]
pub(crate) struct Facts {
    number: u8,
    place: usize,
    position: usize,
    field: u8,
}

pub(crate) fn told(refusal: Refusal) -> Facts {
    Facts {
        number: refusal.number(),
        place: refusal.place,
        position: refusal.position,
        field: refusal.field(),
    }
}

// A refusal that names no byte and no field, in plain numbers.
pub(crate) fn plain(number: u8, place: usize) -> Facts {
    Facts {
        number,
        place,
        position: 0,
        field: 0,
    }
}

// The call was refused, with no byte and no field to name.
pub(crate) fn refused(rt: &impl Abort, answer: Result<usize, Refusal>, number: u8, place: usize) {
    refused_in(rt, answer, number, place, 0, 0)
}

// The call was refused, at this byte position and in this field.
pub(crate) fn refused_in(
    rt: &impl Abort,
    answer: Result<usize, Refusal>,
    number: u8,
    place: usize,
    position: usize,
    field: u8,
) {
    let expected = Facts {
        number,
        place,
        position,
        field,
    };
    assert_eq!(rt; answer.map_err(told), Err(expected));
}

pub(crate) fn sample(time: u32, frequency: u32, power: i32) -> Sample {
    Sample {
        time,
        frequency,
        power,
    }
}

// The table holds this entry at the place.
pub(crate) fn holds_entry<E: PartialEq + Debug>(
    rt: &impl Abort,
    table: &[E],
    place: usize,
    entry: &E,
) {
    assert_eq!(rt; table.get(place), Some(entry));
}

// The table holds this sample at the place.
pub(crate) fn holds(
    rt: &impl Abort,
    table: &[Sample],
    place: usize,
    time: u32,
    frequency: u32,
    power: i32,
) {
    holds_entry(rt, table, place, &sample(time, frequency, power))
}

// The table holds a sample of this time at the place, that of a steady reading.
pub(crate) fn holds_steady(rt: &impl Abort, table: &[Sample], place: usize, time: u32) {
    holds(rt, table, place, time, 50_000, 0)
}

// The place was never written.
pub(crate) fn is_blank(rt: &impl Abort, table: &[Sample], place: usize) {
    holds(rt, table, place, u32::MAX, 0, i32::MIN)
}

// A docket with steady samples at 100, 200 and 300 ms.
pub(crate) fn three(rt: &impl Abort, table: &mut [Sample]) -> OpenDocket {
    let mut docket = OpenDocket::new();
    counts(rt, docket.put(table, steady(100)), 1);
    counts(rt, docket.put(table, steady(200)), 2);
    counts(rt, docket.put(table, steady(300)), 3);
    docket
}

// Close refuses the table with this number, names no place, and hands the docket back.
pub(crate) fn handed_back(
    rt: &impl Abort,
    docket: OpenDocket,
    table: &[Sample],
    number: u8,
) -> Result<OpenDocket, Fail> {
    match docket.close(table) {
        Ok(_) => Err(Fail::new("a refusal was expected")),
        Err(Kept { docket, refusal }) => {
            assert_eq!(rt; told(refusal), plain(number, 0));
            Ok(docket)
        }
    }
}
