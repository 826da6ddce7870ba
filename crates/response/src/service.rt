//! Services: fast, slow and delayed, raise and lower, each with its code.
ghost use Rattle.std.specs.Prelude.{◌≡◌, Some};
ghost use Rattle.response.specs.Services.{direction_of, listed, KnownBy, Apart};

use crate::group::Group;
use disturbance::direction::Direction;
use recording::refusal::{Reason, Refusal};
use std::fmt;
use std::str::FromStr;

/// Raise services answer a low frequency, lower services a high one.
#[derive(Clone, Copy, Debug, PartialEq, Eq)]
pub enum Side {
    Raise,
    Lower,
}

/// A service, named by its code: R for raise, L for lower, and 6 fast, 60 slow, 5 delayed.
#[derive(Clone, Copy, Debug, PartialEq, Eq)]
pub enum Service {
    R6,
    R60,
    R5,
    L6,
    L60,
    L5,
}

impl Side {
    /// The direction of the disturbances that services of this side answer.
    pub fn direction(self) -> Direction
        ensures direction_that_the_side_answers { result ≡ direction_of self }
    {
        match self {
            Side::Raise => Direction::Low,
            Side::Lower => Direction::High,
        }
    }
}

impl FromStr for Service {
    type Err = Refusal;

    ghost from_str_gives = { KnownBy };

    fn from_str(code: &str) -> Result<Service, Refusal> {
        match code {
            "R6" => Ok(Service::R6),
            "R60" => Ok(Service::R60),
            "R5" => Ok(Service::R5),
            "L6" => Ok(Service::L6),
            "L60" => Ok(Service::L60),
            "L5" => Ok(Service::L5),
            _ => Err(Reason::UnknownCode.into()),
        }
    }
}

// Shown as its code.
impl fmt::Display for Service {
    ghost output = { λ service. Some (listed service).code };

    fn fmt<W: fmt::Write>(&self, f: &mut fmt::Formatter<W>) -> fmt::Result {
        f.write_str(self.code())
    }
}

impl Service {
    /// The service with this code. Refusal 18 for any other text, lower case and blanks included.
    pub fn from_code(code: &str) -> Result<Service, Refusal>
        ensures service_with_the_code_or_refused { KnownBy code.now result }
    {
        code.parse()
    }

    /// The service's code.
    pub fn code(self) -> &'static str
        ensures code_in_the_list_of_services { result.now ≡ (listed self).code }
    {
        // The list of the codes, which `from_str` reads the other way.
        match self {
            Service::R6 => "R6",
            Service::R60 => "R60",
            Service::R5 => "R5",
            Service::L6 => "L6",
            Service::L60 => "L60",
            Service::L5 => "L5",
        }
    }

    /// The side of the service.
    pub fn side(self) -> Side
        ensures side_in_the_list_of_services { result ≡ (listed self).side }
    {
        match self {
            Service::R6 | Service::R60 | Service::R5 => Side::Raise,
            Service::L6 | Service::L60 | Service::L5 => Side::Lower,
        }
    }

    /// The group of the service, which fixes its windows.
    pub fn group(self) -> Group
        ensures group_in_the_list_of_services { result ≡ (listed self).group }
    {
        match self {
            Service::R6 | Service::L6 => Group::Fast,
            Service::R60 | Service::L60 => Group::Slow,
            Service::R5 | Service::L5 => Group::Delayed,
        }
    }
}

/// No two services share a code, so a code means one service only.
pub fn codes_are_apart()
    ensures no_two_services_share_a_code { Apart }
{}
