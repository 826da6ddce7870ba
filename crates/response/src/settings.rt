//! Settings: what an owner fixes before a delivery is computed.
ghost use Rattle.std.specs.Prelude.{◌≡◌, ℕ, ◌<◌, ◌≤◌, OnErr};
ghost use Rattle.response.specs.Limits.{Granted};
ghost use Rattle.response.specs.Settings.{Allowed, numbers_of, plain_numbers};

use crate::base::BaseWindow;
use crate::setup::{Rate, Response, Trigger};
use recording::refusal::Refusal;

/// Settings as an owner asks for them, not yet checked.
#[derive(Clone, Copy)]
pub struct Proposal {
    /// The ramp rate, in mHz/s.
    pub rate: u32,
    /// In mHz.
    pub reference_dip: u32,
    /// In mHz.
    pub dead_band: u32,
    /// In mHz.
    pub switch_dip: u32,
    /// The earlier end of the base window, in ms before the disturbance time.
    pub base_begin: u32,
    /// The later end of the base window, in ms before the disturbance time.
    pub base_end: u32,
}

/// Settings within their limits.
#[derive(Clone, Copy, Debug, PartialEq, Eq)]
pub struct Settings {
    /// The settings that response rules read.
    pub response: Response,
    pub(crate) base: BaseWindow,
}

impl Settings {
    /// The settings that are asked for. Refusal 17 if any is outside its limits.
    pub fn new(proposal: Proposal) -> Result<Settings, Refusal>
        ensures granted_exactly_within_the_limits { Granted result (Allowed proposal) (λ s. numbers_of s ≡ proposal) }
    {
        let rate = Rate::new(proposal.rate)?;
        let switch_dip = Trigger::new(proposal.switch_dip)?;
        Ok(Settings {
            response: Response::new(rate, proposal.reference_dip, proposal.dead_band, switch_dip)?,
            base: BaseWindow::new(proposal.base_begin, proposal.base_end)?,
        })
    }

    /// The plain settings: rate 125 mHz/s, reference dip 500 mHz, dead band 150 mHz, switch dip 200
    /// mHz, base window from 20,000 to 8,000 ms before the disturbance time.
    pub fn plain() -> Settings
        ensures has_the_plain_numbers { numbers_of result ≡ plain_numbers }
    {
        let rate = Rate { mhz_per_s: 125 };
        let switch_dip = Trigger { dip: 200 };
        let response = Response {
            rate,
            reference_dip: 500,
            dead_band: 150,
            switch_dip,
        };
        Settings {
            response,
            base: BaseWindow {
                begin: 20_000,
                end: 8_000,
            },
        }
    }

    /// The base window.
    pub fn base(&self) -> BaseWindow
        ensures answers_the_base_window { result ≡ self.now.base }
    {
        self.base
    }

    /// Replaces the settings. Refusal 17, and no change, if any new one is outside its limits.
    pub fn change(&mut self, proposal: Proposal) -> Result<(), Refusal>
        ensures changed_exactly_within_the_limits { Granted result (Allowed proposal)
            (λ _. numbers_of self.new ≡ proposal) }
        ensures settings_as_before_where_refused { OnErr result (self.new ≡ self.old) }
    {
        *self = Settings::new(proposal)?;
        Ok(())
    }
}
