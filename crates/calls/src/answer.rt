//! The answers of calls.
ghost use Rattle.std.specs.Prelude.{◌≡◌};
ghost use Rattle.docket.specs.Calls.{counted, reported};
ghost use Rattle.calls.specs.Answers.{told};

use disturbance::disturbance::Disturbance;
use figure::report::Report;
use recording::refusal::Refusal;

/// The answer of one call.
#[derive(Clone, Copy, Debug, PartialEq, Eq)]
pub enum Answer {
    /// The count of samples, from put, load, amend and strike.
    Counted(usize),
    /// The disturbance, from close.
    Closed(Disturbance),
    /// The report, from deliver.
    Reported(Report),
    /// From reopen, which is never refused.
    Reopened,
    /// The refusal, from any call but reopen.
    Refused(Refusal),
}

impl From<Result<usize, Refusal>> for Answer {
    ghost from_gives = { λ r answer. answer ≡ told (counted r) };

    fn from(outcome: Result<usize, Refusal>) -> Answer {
        match outcome {
            Ok(count) => Answer::Counted(count),
            Err(refusal) => Answer::Refused(refusal),
        }
    }
}

impl From<Result<Report, Refusal>> for Answer {
    ghost from_gives = { λ r answer. answer ≡ told (reported r) };

    fn from(outcome: Result<Report, Refusal>) -> Answer {
        match outcome {
            Ok(report) => Answer::Reported(report),
            Err(refusal) => Answer::Refused(refusal),
        }
    }
}
