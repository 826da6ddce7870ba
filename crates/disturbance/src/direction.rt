//! The direction of a disturbance, and how frequency and power count by it.
ghost use Rattle.std.specs.Prelude.{◌≡◌, Some};
ghost use Rattle.disturbance.specs.Direction.{dip as dip_of, push as push_of, word};
ghost use Rattle.disturbance.specs.Passing.{turned};

use std::fmt;

/// The nominal frequency of the network, in mHz.
pub const NOMINAL: u32 = 50_000;

/// Whether the frequency left the band downwards or upwards. Shown as `low` or `high`.
#[derive(Clone, Copy, Debug, PartialEq, Eq)]
pub enum Direction {
    Low,
    High,
}

impl Direction {
    // The other direction: the side of nominal on which the network has recovered.
    pub(crate) fn other(self) -> Direction
        ensures { result ≡ turned self }
    {
        match self {
            Direction::Low => Direction::High,
            Direction::High => Direction::Low,
        }
    }
}

impl fmt::Display for Direction {
    ghost output = { λ d. Some (word d) };

    fn fmt<W: fmt::Write>(&self, f: &mut fmt::Formatter<W>) -> fmt::Result {
        f.write_str(match self {
            Direction::Low => "low",
            Direction::High => "high",
        })
    }
}

/// How far a frequency in mHz is from nominal, on the side of the disturbance; in mHz, below 0 on
/// the other side. Any frequency fits, also one outside its limits.
pub fn dip(direction: Direction, frequency: u32) -> i64
    ensures dip_on_the_side_of_the_disturbance { result ≡ dip_of direction frequency }
{
    match direction {
        Direction::Low => NOMINAL as i64 - frequency as i64,
        Direction::High => frequency as i64 - NOMINAL as i64,
    }
}

/// The power against the disturbance, in W. Any power fits, also one outside its limits.
pub fn push(direction: Direction, power: i32) -> i64
    ensures power_against_the_disturbance { result ≡ push_of direction power }
{
    match direction {
        Direction::Low => power as i64,
        Direction::High => -(power as i64),
    }
}
