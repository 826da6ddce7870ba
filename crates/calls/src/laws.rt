//! The laws of calls.
ghost use Rattle.calls.specs.Laws.{RefusedChangesNothing, OneAnswer, UnofferedIsUnanswered, OneRecord, LedToTimelines};

/// A refused call changes nothing. A call has one answer. Calls lead to one accepted record, whose
/// samples are a timeline.
pub fn call_laws()
    ensures a_refused_call_leaves_the_record_as_it_was { RefusedChangesNothing }
    ensures a_call_has_one_answer_and_leads_to_one_record { OneAnswer }
    ensures a_call_that_is_not_offered_has_no_answer { UnofferedIsUnanswered }
    ensures calls_lead_to_one_record { OneRecord }
    ensures calls_lead_to_a_timeline { LedToTimelines }
{}
