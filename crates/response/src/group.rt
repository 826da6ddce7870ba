//! Groups of services, and the windows after the disturbance for which each is measured.
ghost use Rattle.std.specs.Prelude.{◌≡◌};
ghost use Rattle.response.specs.Groups.{row_of, Sound};

/// A window after the disturbance time, and the multiplier of its average.
#[derive(Clone, Copy, Debug, PartialEq, Eq)]
pub struct Window {
    /// In ms after the disturbance time.
    pub start: u32,
    /// In ms after the disturbance time.
    pub end: u32,
    /// What the average response is multiplied by: 1 or 2.
    pub multiplier: u32,
}

/// The two windows of a group.
#[derive(Clone, Copy, Debug, PartialEq, Eq)]
pub struct Row {
    /// The first window; its value always counts.
    pub first: Window,
    /// The second window; its value counts unless the window is empty.
    pub second: Window,
    /// The widest gap between neighbouring samples in the windows, in ms.
    pub widest_gap: u32,
}

/// The services that are measured for the same windows.
#[derive(Clone, Copy, Debug, PartialEq, Eq)]
pub enum Group {
    /// R6 and L6.
    Fast,
    /// R60 and L60.
    Slow,
    /// R5 and L5.
    Delayed,
}

// A row for each group, in the order of the groups.
const ROWS: [Row; 3] = [
    Row {
        first: Window {
            start: 0,
            end: 6_000,
            multiplier: 2,
        },
        second: Window {
            start: 6_000,
            end: 60_000,
            multiplier: 2,
        },
        widest_gap: 50,
    },
    Row {
        first: Window {
            start: 6_000,
            end: 60_000,
            multiplier: 2,
        },
        second: Window {
            start: 60_000,
            end: 300_000,
            multiplier: 2,
        },
        widest_gap: 4_000,
    },
    Row {
        first: Window {
            start: 60_000,
            end: 300_000,
            multiplier: 2,
        },
        second: Window {
            start: 300_000,
            end: 900_000,
            multiplier: 1,
        },
        widest_gap: 4_000,
    },
];

impl Group {
    /// The group's windows and widest gap.
    pub fn row(self) -> Row
        ensures row_of_the_group_in_the_table { result ≡ row_of self }
        ensures windows_can_be_averaged { Sound result }
    {
        ROWS[self as usize]
    }
}
