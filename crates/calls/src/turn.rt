//! One call on a docket in either state.
ghost use Rattle.docket.specs.Calls.{of_open, close};
ghost use Rattle.calls.specs.Calls.{meaning_of};
ghost use Rattle.calls.specs.Outcomes.{Does};
ghost use Rattle.calls.specs.States.{TakesTurn};

use crate::answer::Answer;
use crate::call::Call;
use docket::docket::{ClosedDocket, Kept, OpenDocket, State};
use recording::interface::Recording;
use recording::sample::Sample;
use response::rule::ResponseRule;

/// The result of one call.
#[derive(Drop)]
pub struct Turn {
    /// The docket after the call.
    pub state: State,
    /// The answer, or none if the docket's state does not allow the call; then nothing changes.
    pub answer: Option<Answer>,
}

// One call on an open docket.
fn open_turn<R: Recording, P: ResponseRule>(
    mut docket: OpenDocket,
    table: &mut [Sample],
    call: Call<'_, R, P>,
) -> Turn
    ensures answers_as_the_accepted_record { TakesTurn (State.Open docket) table.old
        (meaning_of R.meaning P.ResponseRule.triggers P.ResponseRule.weighs call.entry)
        result table.new }
    ensures answers_as_the_docket_and_its_table { Does (State.Open docket) table.old
        (meaning_of R.meaning P.ResponseRule.triggers P.ResponseRule.weighs call.entry)
        result table.new }
{
    let answer = match call {
        Call::Put(reading) => Some(docket.put(table, reading).into()),
        Call::Load(recording) => Some(docket.load(table, recording).into()),
        Call::Amend(place, reading) => Some(docket.amend(table, place, reading).into()),
        Call::Strike(place) => Some(docket.strike(table, place).into()),
        Call::Close => return close_turn(docket, table),
        Call::Deliver(_) | Call::Reopen => None,
    };
    Turn {
        state: State::Open(docket),
        answer,
    }
}

// A close of an open docket.
fn close_turn(docket: OpenDocket, table: &[Sample]) -> Turn
    ensures answers_as_the_accepted_record { TakesTurn (State.Open docket) table.now
        (of_open close) result table.now }
    ensures answers_as_the_docket_and_its_table { Does (State.Open docket) table.now
        (of_open close) result table.now }
{
    match docket.close(table) {
        Ok(docket) => {
            let answer = Some(Answer::Closed(docket.disturbance()));
            Turn {
                state: State::Closed(docket),
                answer,
            }
        }
        Err(Kept { docket, refusal }) => Turn {
            state: State::Open(docket),
            answer: Some(Answer::Refused(refusal)),
        },
    }
}

// One call on a closed docket.
fn closed_turn<R: Recording, P: ResponseRule>(
    docket: ClosedDocket,
    table: &[Sample],
    call: Call<'_, R, P>,
) -> Turn
    ensures answers_as_the_accepted_record { TakesTurn (State.Closed docket) table.now
        (meaning_of R.meaning P.ResponseRule.triggers P.ResponseRule.weighs call.entry)
        result table.now }
    ensures answers_as_the_docket_and_its_table { Does (State.Closed docket) table.now
        (meaning_of R.meaning P.ResponseRule.triggers P.ResponseRule.weighs call.entry)
        result table.now }
{
    let answer = match call {
        Call::Deliver(request) => Some(docket.deliver(table, request).into()),
        Call::Reopen => {
            return Turn {
                state: State::Open(docket.reopen()),
                answer: Some(Answer::Reopened),
            };
        }
        Call::Put(_) | Call::Load(_) | Call::Amend(_, _) | Call::Strike(_) | Call::Close => None,
    };
    Turn {
        state: State::Closed(docket),
        answer,
    }
}

/// Makes one call on a docket in either state, if the state allows it.
pub fn take<R: Recording, P: ResponseRule>(
    state: State,
    table: &mut [Sample],
    call: Call<'_, R, P>,
) -> Turn
    ensures answers_as_the_accepted_record { TakesTurn state table.old
        (meaning_of R.meaning P.ResponseRule.triggers P.ResponseRule.weighs call.entry)
        result table.new }
    ensures answers_as_the_docket_and_its_table { Does state table.old
        (meaning_of R.meaning P.ResponseRule.triggers P.ResponseRule.weighs call.entry)
        result table.new }
{
    match state {
        State::Open(docket) => open_turn(docket, table, call),
        State::Closed(docket) => closed_turn(docket, table, call),
    }
}
