//! The reply to a line of a script.
ghost use Rattle.std.specs.Prelude.{◌≡◌};
ghost use Rattle.replay.specs.Replies.{replied, refused, granted};

use calls::answer::Answer;
use recording::refusal::Refusal;

/// The reply to one line.
#[derive(Clone, Copy, Debug, PartialEq, Eq)]
pub enum Reply {
    /// The answer of a call.
    Told(Answer),
    /// A choice is made.
    Done,
    /// The docket's state does not allow the call.
    NotOffered,
    /// The line is not a call.
    NoCall,
}

// No answer means that the docket's state does not allow the call.
impl From<Option<Answer>> for Reply {
    ghost from_gives = { λ o reply. reply ≡ replied o };

    fn from(answer: Option<Answer>) -> Reply {
        match answer {
            Some(answer) => Reply::Told(answer),
            None => Reply::NotOffered,
        }
    }
}

// A refused choice has the same reply as a refused call.
impl From<Refusal> for Reply {
    ghost from_gives = { λ f reply. reply ≡ refused f };

    fn from(refusal: Refusal) -> Reply {
        Reply::Told(Answer::Refused(refusal))
    }
}

// A choice is made or refused.
impl From<Result<(), Refusal>> for Reply {
    ghost from_gives = { λ r reply. reply ≡ granted r };

    fn from(outcome: Result<(), Refusal>) -> Reply {
        match outcome {
            Ok(()) => Reply::Done,
            Err(refusal) => refusal.into(),
        }
    }
}
