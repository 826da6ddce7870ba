//! Records that the tests share: time in ms, frequency in mHz, power in W.
use recording::sample::Sample;

pub(crate) const BLANK: Sample = Sample {
    time: 0,
    frequency: 50_000,
    power: 0,
};

pub(crate) fn at(time: u32, frequency: u32, power: i32) -> Sample {
    Sample {
        time,
        frequency,
        power,
    }
}

// A fall by 2 mHz a ms from 49,850 at 20,000, so that the disturbance time is 20,001, and one
// sample more. This and the three like it are names in place of parameters, so that an example says
// in a word which it is.
pub(crate) fn fallen(last: Sample) -> [Sample; 4] {
    [
        at(5_000, 50_000, 0),
        at(20_000, 49_850, 0),
        at(20_050, 49_750, 1_000),
        last,
    ]
}

// The same with two samples more.
pub(crate) fn fallen_long(fourth: Sample, last: Sample) -> [Sample; 5] {
    [
        at(5_000, 50_000, 0),
        at(20_000, 49_850, 0),
        at(20_050, 49_750, 1_000),
        fourth,
        last,
    ]
}

// It comes back by 10 mHz a ms: on 50,000 at 20,075, recovered at 20,076.
pub(crate) fn record_a() -> [Sample; 4] {
    fallen(at(20_100, 50_250, 1_000))
}

// A rise by 2 mHz a ms from 50,150 at 20,000, and one sample more.
pub(crate) fn risen(last: Sample) -> [Sample; 4] {
    [
        at(5_000, 50_000, 0),
        at(20_000, 50_150, 0),
        at(20_050, 50_250, -1_000),
        last,
    ]
}

// The same with two samples more.
pub(crate) fn risen_long(fourth: Sample, last: Sample) -> [Sample; 5] {
    [
        at(5_000, 50_000, 0),
        at(20_000, 50_150, 0),
        at(20_050, 50_250, -1_000),
        fourth,
        last,
    ]
}

// A fall by 1 mHz a ms through the whole band: the disturbance time is 19,301, on a sample. It
// comes back by 10 mHz a ms: on 50,000 at 19,365, recovered at 19,366.
pub(crate) fn record_b() -> [Sample; 4] {
    [
        at(19_000, 50_150, 7),
        at(19_301, 49_849, 700),
        at(19_340, 49_750, 1_000),
        at(19_390, 50_250, 1_000),
    ]
}

// A fall by 100 mHz a ms: at the disturbance time 20,001 the dip is 250. It comes back by 20 mHz a
// ms: recovered at 20,020.
pub(crate) fn record_c() -> [Sample; 5] {
    [
        at(5_000, 50_000, 0),
        at(19_990, 49_900, 500),
        at(20_000, 49_850, 200),
        at(20_002, 49_650, 1_000),
        at(20_022, 50_050, 0),
    ]
}
