//! The base window: the part of a record from which the base is taken.
ghost use Rattle.std.specs.Prelude.{◌≡◌, ℕ, ◌<◌, ◌≤◌};
ghost use Rattle.response.specs.Limits.{IsBase, Granted};

use crate::limits::EARLIEST_BEGIN;
use recording::refusal::{Reason, Refusal};

/// A base window within its limits: `begin` from 1 to 60,000, `end` less than `begin`.
#[derive(Clone, Copy, Debug, PartialEq, Eq)]
pub struct BaseWindow {
    /// Its earlier end, in ms before the disturbance time.
    pub begin: u32,
    /// Its later end, in ms before the disturbance time.
    pub end: u32,
    ghost within: { IsBase begin end },
}

impl BaseWindow {
    /// The window from `begin` to `end`, both inside. Refusal 17 outside the limits.
    pub fn new(begin: u32, end: u32) -> Result<BaseWindow, Refusal>
        ensures granted_exactly_within_the_limits { Granted result (IsBase begin end)
            (λ w. (w.begin ≡ begin) × (w.end ≡ end)) }
    {
        // Two comparisons, since the number after `end` need not fit its type.
        if end < begin && begin <= EARLIEST_BEGIN {
            Ok(BaseWindow { begin, end })
        } else {
            Err(Reason::SettingOutside.into())
        }
    }
}
