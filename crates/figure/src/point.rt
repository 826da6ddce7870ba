//! A sample as it counts for the direction of a disturbance.

/// A sample with its dip and its push.
#[derive(Clone, Copy)]
pub struct Point {
    /// In ms.
    pub time: u32,
    /// How far the frequency is from nominal on the side of the disturbance, in mHz.
    pub dip: i64,
    /// The power against the disturbance, in W.
    pub push: i64,
}
