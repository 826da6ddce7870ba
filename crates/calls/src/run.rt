//! A list of calls on a new docket and one table.
ghost use Rattle.std.specs.Prelude.{◌≡◌, ℕ, List, length, map, Result as Either};
ghost use Rattle.recording.specs.declared.sample.Sample.{Sample as Taken};
ghost use Rattle.calls.specs.declared.answer.Answer.{Answer as Told};
ghost use Rattle.calls.specs.declared.run.NotOffered.{NotOffered as Stopped};
ghost use Rattle.calls.specs.Calls.{meaning_of};
ghost use Rattle.calls.specs.Promises.{EveryAnswer, EveryDelivery};
ghost use Rattle.calls.specs.Runs.{Ran};

use crate::answer::Answer;
use crate::call::Call;
use crate::turn::take;
use docket::docket::{OpenDocket, State};
use recording::interface::Recording;
use recording::sample::Sample;
use response::rule::ResponseRule;

/// A list of calls ended at a call that the docket's state does not allow. The calls before it have
/// their answers.
#[derive(Clone, Copy, Debug, PartialEq, Eq)]
pub struct NotOffered {
    /// The place of that call in the list, counted from 0.
    pub place: usize,
}

/// Runs calls on a new docket and a table, at most one for each place in `answers`, and returns
/// how many were answered. Each answer is written at its call's place. A call that the docket's
/// state does not allow ends the run.
pub fn run<R: Recording, P: ResponseRule>(
    table: &mut [Sample],
    calls: &[Call<'_, R, P>],
    answers: &mut [Answer],
) -> Result<usize, NotOffered>
    ensures answers_as_the_accepted_record { Ran table.old
        (map (meaning_of R.meaning P.ResponseRule.triggers P.ResponseRule.weighs) calls.now)
        answers.old result table.new answers.new }
    ensures every_answer_is_that_of_its_record { EveryAnswer (length table.old)
        (map (meaning_of R.meaning P.ResponseRule.triggers P.ResponseRule.weighs) calls.now)
        result answers.new }
    ensures every_delivery_is_that_of_its_record { EveryDelivery (length table.old)
        (map (meaning_of R.meaning P.ResponseRule.triggers P.ResponseRule.weighs) calls.now)
        result answers.new }
    ensures no_other_answer { (r : Either ℕ Stopped) (left : List Taken) (filled : List Told)
        → Ran table.old
        (map (meaning_of R.meaning P.ResponseRule.triggers P.ResponseRule.weighs) calls.now)
        answers.old r left filled
        → (r ≡ result) × (left ≡ table.new) × (filled ≡ answers.new) }
{
    let mut state = State::Open(OpenDocket::new());
    let count = calls.len().min(answers.len());
    // By place, since each call is read and its answer written at the same place of two lists.
    for place in 0..count {
        let turn = take(state, table, calls[place]);
        state = turn.state;
        let Some(answer) = turn.answer else {
            return Err(NotOffered { place });
        };
        answers[place] = answer;
    }
    Ok(count)
}
