//! A window on the clock of the record.

/// A window after the shift and the cut at recovery. Its ends are signed, since it may begin before
/// time 0.
#[derive(Clone, Copy)]
pub struct Span {
    /// In ms of the record's clock.
    pub start: i64,
    /// In ms of the record's clock; the window is empty unless it is after `start`.
    pub end: i64,
    /// What the average response is multiplied by.
    pub multiplier: u32,
}
