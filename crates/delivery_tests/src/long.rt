//! Records over whole windows. The dip is 200 from the disturbance time 20,001 to the end of the
//! second window, and from 1,200 ms on it weighs 3. The last sample lies 1 ms later and has
//! recovered.
ghost use Rattle.std.specs.Prelude.{◌<◌, ◌≤◌, negsuc, ◌≤ℤ◌};

use crate::records::*;
use disturbance::direction::Direction;
use recording::sample::Sample;

// Low or high by this many mHz.
fn off(direction: Direction, time: u32, dip: u8, power: i32) -> Sample {
    let frequency = match direction {
        Direction::Low => 50_000 - dip as u32,
        Direction::High => 50_000 + dip as u32,
    };
    at(time, frequency, power)
}

// Recovered, on the other side.
fn recovered(direction: Direction, time: u32) -> Sample {
    let other = match direction {
        Direction::Low => Direction::High,
        Direction::High => Direction::Low,
    };
    off(other, time, 200, 900_000)
}

// The power that works so much against a disturbance.
fn pushing(direction: Direction, push: i32) -> i32
    requires { negsuc 999999999 ≤ℤ push }
{
    match direction {
        Direction::Low => push,
        Direction::High => -push,
    }
}

// Two samples of this power before the disturbance, and then one every step, in ms, its power by
// its number.
fn record<const N: usize, F: Fn(u16) -> i32>(
    direction: Direction,
    before: i32,
    step: u16,
    power: F,
) -> [Sample; N]
    requires size { (2 ≤ N) × (N < 65536) }
    requires callable { F.IsAlwaysCallable power }
{
    let mut samples = [BLANK; N];
    let places = &mut samples[..];
    places[0] = at(5_000, 50_000, before);
    places[1] = off(direction, 20_000, 150, before);
    for (i, place) in places[2..].iter_mut().enumerate() {
        let number = i as u16;
        let time = 20_001 + step as u32 * number as u32;
        *place = off(direction, time, 200, power(number));
    }
    samples
}

// A sample every 50 ms: 100,000 W for 6,000 ms, then 60 W less at each sample, to 35,200 W at
// 80,001.
pub(crate) fn fast_record(direction: Direction) -> [Sample; 1_204] {
    let mut samples = record(direction, 0, 50, |i: u16| {
        let push = if i <= 120 {
            100_000
        } else {
            107_200 - 60 * i as i32
        };
        pushing(direction, push)
    });
    samples[1_203] = recovered(direction, 80_002);
    samples
}

// A sample every 4,000 ms: 1,000 W more at each up to 115,000 W at 80,001, then 2,000 W less at
// each, to -5,000 W at 320,001.
pub(crate) fn slow_record(direction: Direction) -> [Sample; 79] {
    let mut samples = record(direction, 0, 4_000, |i: u16| {
        let push = if i <= 15 {
            100_000 + 1_000 * i as i32
        } else {
            145_000 - 2_000 * i as i32
        };
        pushing(direction, push)
    });
    samples[78] = recovered(direction, 320_002);
    samples
}

// A sample every 4,000 ms: 1,000 W more at each up to 175,000 W at 320,001, then 1,000 W less at
// each, to 25,000 W at 920,001.
pub(crate) fn delayed_record(direction: Direction) -> [Sample; 229] {
    let mut samples = record(direction, 0, 4_000, |i: u16| {
        let push = if i <= 75 {
            100_000 + 1_000 * i as i32
        } else {
            250_000 - 1_000 * i as i32
        };
        pushing(direction, push)
    });
    samples[228] = recovered(direction, 920_002);
    samples
}

// From -1,000,000,000 W to 1,000,000,000 W at the disturbance; without a sample after the windows.
pub(crate) fn greatest_record(direction: Direction) -> [Sample; 228] {
    record(direction, -1_000_000_000, 4_000, |_: u16| 1_000_000_000)
}
