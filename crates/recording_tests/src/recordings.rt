//! Recordings of both makes: members, leftover bytes, and a bad member in the middle.
use crate::expected::{gives, is_refused};
use recording::interface::{Recording, sample_at};
use recording::makes::{ByteRecording, Make};

// (1 ms; 50,000 mHz; -2 W), then (2 ms; 50,001 mHz; 3 W), then 11 bytes more
const WHOLE: [u8; 35] = [
    0, 0, 0, 1, 0, 0, 0xc3, 0x50, 0xff, 0xff, 0xff, 0xfe, 0, 0, 0, 2, 0, 0, 0xc3, 0x51, 0, 0, 0, 3,
    1, 2, 3, 4, 5, 6, 7, 8, 9, 10, 11,
];

// (1 ms; 50.0 Hz; 0.0078125 MW), then (2 ms; no number; -12.5 MW), then (3 ms; 50.0 Hz; -12.5 MW)
const FLOATING: [u8; 36] = [
    0, 0, 0, 1, 0x42, 0x48, 0, 0, 0x3c, 0, 0, 0, 0, 0, 0, 2, 0x7f, 0x80, 0, 1, 0xc1, 0x48, 0, 0, 0,
    0, 0, 3, 0x42, 0x48, 0, 0, 0xc1, 0x48, 0, 0,
];

#[test]
fn an_empty_recording_has_no_member(rt: HostRuntime) {
    let recording = ByteRecording::new(Make::Whole, &WHOLE[0..0]);
    assert_eq!(rt; recording.count(), 0);
    is_refused(&rt, sample_at(&recording, 0), 2, 0, 0, 0);
    is_refused(&rt, sample_at(&recording, 9), 2, 9, 0, 0);
}

#[test]
fn whole_records_stand_at_their_places(rt: HostRuntime) {
    let recording = ByteRecording::new(Make::Whole, &WHOLE[0..24]);
    assert_eq!(rt; recording.count(), 2);
    gives(&rt, sample_at(&recording, 0), 1, 50_000, -2);
    gives(&rt, sample_at(&recording, 1), 2, 50_001, 3);
    is_refused(&rt, sample_at(&recording, 2), 2, 2, 0, 0);
}

#[test]
fn leftover_bytes_are_a_last_member(rt: HostRuntime) {
    for extra in 1..12 {
        let recording = ByteRecording::new(Make::Whole, &WHOLE[0..24 + extra]);
        assert_eq!(rt; recording.count(), 3);
        gives(&rt, sample_at(&recording, 1), 2, 50_001, 3);
        is_refused(&rt, sample_at(&recording, 2), 3, 2, 24, 0);
        is_refused(&rt, sample_at(&recording, 3), 2, 3, 0, 0);
    }
}

#[test]
fn a_cut_first_record_is_the_only_member(rt: HostRuntime) {
    let recording = ByteRecording::new(Make::Floating, &FLOATING[0..11]);
    assert_eq!(rt; recording.count(), 1);
    is_refused(&rt, sample_at(&recording, 0), 3, 0, 0, 0);
}

#[test]
fn a_bad_member_in_the_middle_is_refused_alone(rt: HostRuntime) {
    let recording = ByteRecording::new(Make::Floating, &FLOATING);
    assert_eq!(rt; recording.count(), 3);
    gives(&rt, sample_at(&recording, 0), 1, 50_000, 7_813);
    is_refused(&rt, sample_at(&recording, 1), 4, 1, 12, 2);
    gives(&rt, sample_at(&recording, 2), 3, 50_000, -12_500_000);
}

// The same bytes in the other make are other fields.
#[test]
fn the_make_decides_what_bytes_mean(rt: HostRuntime) {
    let recording = ByteRecording::new(Make::Whole, &FLOATING);
    is_refused(&rt, sample_at(&recording, 2), 4, 2, 24, 2);
}
