//! The checks of readings and recordings.
use recording::fault::ReadingFault;
use recording::reading::Reading;
use recording::refusal::Refusal;
use recording::sample::Sample;
use std::fmt::Debug;
use std::process::Abort;

// What was got is this sample.
pub(crate) fn gives<E: PartialEq + Debug + Drop>(
    rt: &impl Abort,
    got: Result<Sample, E>,
    time: u32,
    frequency: u32,
    power: i32,
) {
    let sample = Sample {
        time,
        frequency,
        power,
    };
    assert_eq!(rt; got, Ok(sample));
}

// The reading is refused for the field with this number.
pub(crate) fn outside(rt: &impl Abort, reading: Reading, number: u8) {
    let refused = reading.sample().map_err(|field| field.number());
    assert_eq!(rt; refused, Err(number));
}

// What was got is a fault that, as a refusal, has this number, place, byte position and field.
pub(crate) fn is_refused(
    rt: &impl Abort,
    got: Result<Sample, ReadingFault>,
    number: u8,
    place: usize,
    position: usize,
    field: u8,
) {
    let refused = got.map_err(|fault| {
        let refusal = Refusal::from(fault);
        (
            refusal.number(),
            refusal.place,
            refusal.position,
            refusal.field(),
        )
    });
    assert_eq!(rt; refused, Err((number, place, position, field)));
}
