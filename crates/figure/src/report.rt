//! The report of a delivery without a defect.
ghost use Rattle.std.specs.Prelude.{Some};
ghost use Rattle.figure.specs.Verdicts.{word};

use std::fmt;

/// The delivery compared with the enabled amount. Shown as `met`, `level` or `short`.
#[derive(Clone, Copy, Debug, PartialEq, Eq)]
pub enum Verdict {
    /// The delivery is above the enabled amount.
    Met,
    /// They are equal.
    Level,
    /// The delivery is below the enabled amount.
    Short,
}

// Shown as a word.
impl fmt::Display for Verdict {
    ghost output = { λ verdict. Some (word verdict) };

    fn fmt<W: fmt::Write>(&self, f: &mut fmt::Formatter<W>) -> fmt::Result {
        f.write_str(match self {
            Verdict::Met => "met",
            Verdict::Level => "level",
            Verdict::Short => "short",
        })
    }
}

/// The figures of a delivery.
#[derive(Clone, Copy, Debug, PartialEq, Eq)]
pub struct Report {
    /// The disturbance time, in ms.
    pub disturbance: u32,
    /// The recovery in ms, or none.
    pub recovery: Option<u32>,
    /// The value of the first window, in W.
    pub first: i64,
    /// The value of the second window in W, or none if that window is empty.
    pub second: Option<i64>,
    /// The lesser value, or the first alone, in W.
    pub delivery: i64,
    /// The delivery compared with the enabled amount.
    pub verdict: Verdict,
}
