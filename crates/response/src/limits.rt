//! The limits of the settings.
ghost use Rattle.std.specs.Prelude.{◌≡◌};
ghost use Rattle.response.specs.Limits.{Within, Granted};

use recording::refusal::{Reason, Refusal};

/// The least ramp rate, in mHz/s.
pub const LEAST_RATE: u32 = 1;

/// The greatest ramp rate, in mHz/s.
pub const GREATEST_RATE: u32 = 10_000;
/// The least reference dip, in mHz.
pub const LEAST_REFERENCE: u32 = 160;

/// The least switch dip, in mHz.
pub const LEAST_SWITCH: u32 = 151;

/// The greatest reference dip and the greatest switch dip, in mHz.
pub const GREATEST_DIP: u32 = 2_000;
/// The widest dead band, in mHz; the least is 0.
pub const WIDEST_DEAD_BAND: u32 = 150;
/// The earliest begin of the base window, in ms before the disturbance time.
pub const EARLIEST_BEGIN: u32 = 60_000;

/// The dip at which a frequency ramp starts, in mHz.
pub const RAMP_START: u32 = 150;

// A setting, if it is from one limit to the other. Refusal 17 otherwise.
pub(crate) fn within(least: u32, greatest: u32, setting: u32) -> Result<u32, Refusal>
    ensures { Granted result (Within least greatest setting) (λ granted. granted ≡ setting) }
{
    (least..=greatest)
        .contains(&setting)
        .then_some(setting)
        .ok_or(Reason::SettingOutside.into())
}
