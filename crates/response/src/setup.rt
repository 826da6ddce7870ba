//! The settings that response rules read, each within its limits.
ghost use Rattle.std.specs.Prelude.{◌≡◌, ℕ, ◌≤◌};
ghost use Rattle.response.specs.Limits.{Within, IsRate, IsReference, IsDeadBand, IsTrigger, Granted};

use crate::limits::{
    GREATEST_DIP, GREATEST_RATE, LEAST_RATE, LEAST_REFERENCE, LEAST_SWITCH, WIDEST_DEAD_BAND,
    within,
};
use recording::refusal::Refusal;

/// The rate of a frequency ramp.
#[derive(Clone, Copy, Debug, PartialEq, Eq)]
pub struct Rate {
    /// In mHz/s, from 1 to 10,000.
    pub mhz_per_s: u32,
    ghost within: { IsRate mhz_per_s },
}

/// A dip that triggers a response.
#[derive(Clone, Copy, Debug, PartialEq, Eq)]
pub struct Trigger {
    /// In mHz, from 151 to 2,000.
    pub dip: u32,
    ghost within: { IsTrigger dip },
}

/// The settings that response rules read.
#[derive(Clone, Copy, Debug, PartialEq, Eq)]
pub struct Response {
    /// The ramp rate.
    pub rate: Rate,
    /// In mHz, from 160 to 2,000.
    pub reference_dip: u32,
    /// In mHz, from 0 to 150.
    pub dead_band: u32,
    /// The trigger of the switching rule.
    pub switch_dip: Trigger,
    ghost reference_within: { IsReference reference_dip },
    ghost dead_within: { IsDeadBand dead_band },
}

impl Rate {
    /// A rate in mHz/s. Refusal 17 outside its limits.
    pub fn new(mhz_per_s: u32) -> Result<Rate, Refusal>
        ensures granted_exactly_within_the_limits { Granted result (IsRate mhz_per_s)
            (λ rate. rate.mhz_per_s ≡ mhz_per_s) }
    {
        Ok(Rate {
            mhz_per_s: within(LEAST_RATE, GREATEST_RATE, mhz_per_s)?,
        })
    }
}

impl Trigger {
    /// A trigger at a dip in mHz. Refusal 17 outside its limits.
    pub fn new(dip: u32) -> Result<Trigger, Refusal>
        ensures granted_exactly_within_the_limits { Granted result (IsTrigger dip) (λ trigger. trigger.dip ≡ dip) }
    {
        Ok(Trigger {
            dip: within(LEAST_SWITCH, GREATEST_DIP, dip)?,
        })
    }
}

impl Response {
    /// The settings that response rules read. Refusal 17 if the reference dip or the dead band,
    /// both in mHz, is outside its limits.
    pub fn new(
        rate: Rate,
        reference_dip: u32,
        dead_band: u32,
        switch_dip: Trigger,
    ) -> Result<Response, Refusal>
        ensures granted_exactly_within_the_limits { Granted result (IsReference reference_dip × IsDeadBand dead_band)
            (λ r. (r.rate ≡ rate) × (r.reference_dip ≡ reference_dip)
            × (r.dead_band ≡ dead_band) × (r.switch_dip ≡ switch_dip)) }
    {
        Ok(Response {
            rate,
            reference_dip: within(LEAST_REFERENCE, GREATEST_DIP, reference_dip)?,
            dead_band: within(0, WIDEST_DEAD_BAND, dead_band)?,
            switch_dip,
        })
    }
}
