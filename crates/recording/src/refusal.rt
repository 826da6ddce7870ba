//! Refusals: why a call is refused, and where.
ghost use Rattle.std.specs.Prelude.{◌≡◌, ◌++◌, Some, codes, decimal};
ghost use Rattle.recording.specs.Refusals.{listed, field_number, refusal};

use std::error::Error;
use std::fmt;

/// The part of the engine that refuses a call.
#[derive(Clone, Copy, Debug, PartialEq, Eq)]
pub enum Layer {
    Recording,
    Reading,
    Docket,
    Delivery,
    Setup,
}

/// A field of a sample or a target, by its number in a refusal: 1 time, 2 frequency, 3 power.
#[derive(Clone, Copy, Debug, PartialEq, Eq)]
pub enum Field {
    Time = 1,
    Frequency,
    Power,
}

/// Every reason for a refusal, with its number in docs/RULES.md under Refusals.
#[derive(Clone, Copy, Debug, PartialEq, Eq)]
pub enum Reason {
    /// 1: the table is not the one to which the count, or the closed docket, belongs.
    OtherTable,
    /// 2, of a recording: the place is at or beyond the number of members.
    BeyondEnd,
    /// 2, of a timeline: the place is at or beyond the count.
    BeyondCount,
    /// 3: the recording ends inside a record.
    CutRecord,
    /// 4: a field is outside its limits, the first of time, frequency and power.
    OutsideLimits(Field),
    /// 5: the count has reached the table's places or the maximum.
    Full,
    /// 6: the time is not later than the entry before, or not earlier than the entry after.
    OutOfOrder,
    /// 7: the docket has no disturbance at close.
    NoDisturbance,
    /// 8: the enabled amount is not from 0 to 1,000,000,000 W.
    AmountOutside,
    /// 9: the service belongs to the other direction.
    OtherDirection,
    /// 10: the targets' table is not the one to which their count belongs.
    OtherTargets,
    /// 11: there is no base sample.
    NoBaseSample,
    /// 12: the disturbance time or a base sample lies before the first target or after the last.
    OutsideTargets,
    /// 13: the rule has a trigger, and the dip does not reach it before recovery.
    NoTriggerTime,
    /// 14: recovery is at or before the first window's start.
    EmptyFirstWindow,
    /// 15: a window begins before the first sample or ends after the last.
    WindowOutside,
    /// 16: neighbouring samples in a window are further apart than the widest gap.
    WideGap,
    /// 17: a setting, or a trial's window, is outside its limits.
    SettingOutside,
    /// 18: the text is not the code of a service.
    UnknownCode,
}

/// The answer of a refused call. Number, layer and field follow from the reason.
#[derive(Clone, Copy, Debug, PartialEq, Eq)]
pub struct Refusal {
    /// Why the call is refused.
    pub reason: Reason,
    /// The member's place in a load, the count in a put, the place given in an amend, a strike or a
    /// recording's question; else 0.
    pub place: usize,
    /// The position of the member's first byte in its recording; else 0.
    pub position: usize,
}

impl Field {
    /// The field's number in a refusal: 1 time, 2 frequency, 3 power.
    pub fn number(self) -> u8
        ensures number_of_the_field { result ≡ field_number self }
    {
        self as u8
    }
}

impl Reason {
    /// The refusal for this reason at the place of a member or entry, with byte position 0.
    pub fn at(self, place: usize) -> Refusal
        ensures refusal_at_the_place_names_no_byte { result ≡ refusal self place 0 }
    {
        Refusal {
            reason: self,
            place,
            position: 0,
        }
    }
}

// A reason without a place: place and position are 0.
impl From<Reason> for Refusal {
    ghost from_gives = { λ reason r. r ≡ refusal reason 0 0 };

    fn from(reason: Reason) -> Refusal {
        reason.at(0)
    }
}

impl Refusal {
    /// The number in the list of refusals, from 1 to 18.
    pub fn number(self) -> u8
        ensures number_in_the_list_of_refusals { result ≡ (listed self.reason).number }
    {
        match self.reason {
            Reason::OtherTable => 1,
            Reason::BeyondEnd | Reason::BeyondCount => 2,
            Reason::CutRecord => 3,
            Reason::OutsideLimits(_) => 4,
            Reason::Full => 5,
            Reason::OutOfOrder => 6,
            Reason::NoDisturbance => 7,
            Reason::AmountOutside => 8,
            Reason::OtherDirection => 9,
            Reason::OtherTargets => 10,
            Reason::NoBaseSample => 11,
            Reason::OutsideTargets => 12,
            Reason::NoTriggerTime => 13,
            Reason::EmptyFirstWindow => 14,
            Reason::WindowOutside => 15,
            Reason::WideGap => 16,
            Reason::SettingOutside => 17,
            Reason::UnknownCode => 18,
        }
    }

    /// The part of the engine that refuses the call.
    pub fn layer(self) -> Layer
        ensures layer_in_the_list_of_refusals { result ≡ (listed self.reason).layer }
    {
        match self.reason {
            Reason::BeyondEnd | Reason::CutRecord => Layer::Recording,
            Reason::OutsideLimits(_) => Layer::Reading,
            Reason::OtherTable
            | Reason::BeyondCount
            | Reason::Full
            | Reason::OutOfOrder
            | Reason::NoDisturbance => Layer::Docket,
            Reason::SettingOutside | Reason::UnknownCode => Layer::Setup,
            Reason::AmountOutside
            | Reason::OtherDirection
            | Reason::OtherTargets
            | Reason::NoBaseSample
            | Reason::OutsideTargets
            | Reason::NoTriggerTime
            | Reason::EmptyFirstWindow
            | Reason::WindowOutside
            | Reason::WideGap => Layer::Delivery,
        }
    }

    /// The field that is outside its limits: 1 time, 2 frequency, 3 power; 0 with any other reason.
    pub fn field(self) -> u8
        ensures field_number_or_zero { result ≡ (listed self.reason).field }
    {
        match self.reason {
            Reason::OutsideLimits(field) => field.number(),
            _ => 0,
        }
    }
}

// Shown as `refused` and the number.
impl fmt::Display for Refusal {
    ghost output = { λ r. Some (codes "refused " ++ decimal (listed r.reason).number) };

    fn fmt<W: fmt::Write>(&self, f: &mut fmt::Formatter<W>) -> fmt::Result {
        let number = self.number();
        write!(f, "refused {number}")
    }
}

impl Error for Refusal {}
