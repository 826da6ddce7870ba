//! What the response is measured against.
ghost use Rattle.exact.specs.Limits.{Within};
ghost use Rattle.delivery.specs.Limits.{widest_base};

// The disturbance time in ms, and the base in hundredths of a watt.
#[derive(Clone, Copy)]
pub(crate) struct Basis {
    pub(crate) disturbance: u32,
    pub(crate) base: i128,
    ghost within: { Within widest_base base },
}
