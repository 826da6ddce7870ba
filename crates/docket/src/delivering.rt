//! A delivery on a closed docket: the table must be the docket's; its counted samples are
//! delivered.
ghost use Rattle.std.specs.Prelude.{◌≡◌, take, Some, Decides, MatchResult};
ghost use Rattle.disturbance.specs.Disturbance.{Disturbed, disturbance_of};
ghost use Rattle.figure.specs.Asked.{asked};
ghost use Rattle.docket.specs.Deliveries.{Belongs, Delivered};

use delivery::deliver::deliver;
use disturbance::disturbance::{Disturbance, find_disturbance};
use disturbance::trace::Trace;
use figure::report::Report;
use figure::request::Request;
use recording::refusal::{Reason, Refusal};
use recording::sample::Sample;
use response::rule::ResponseRule;
use timeline::fault::check_table;

// Whether a trace has this disturbance.
fn has_disturbance(trace: Trace, disturbance: Disturbance) -> bool
    ensures { Decides result (disturbance_of trace.entry.samples.now ≡ Some disturbance) }
{
    find_disturbance(trace) == Some(disturbance)
}

// The counted samples of a table, if they have the disturbance that the docket was closed on.
pub(crate) fn closed_trace(
    table: &[Sample],
    count: usize,
    disturbance: Disturbance,
) -> Result<Trace<'_>, Reason>
    ensures { MatchResult result
        (λ trace. (Belongs count disturbance table.now) × (trace.samples.now ≡ take count table.now))
        (λ why. (Belongs count disturbance table.now → ⊥) × (why ≡ Reason.OtherTable)) }
{
    check_table(table, count)?;
    let trace = Trace {
        samples: &table[0..count],
    };
    if has_disturbance(trace, disturbance) {
        Ok(trace)
    } else {
        Err(Reason::OtherTable)
    }
}

// The answer to a request, on a trace with its disturbance.
pub(crate) fn deliver_on<R: ResponseRule>(
    trace: Trace,
    disturbance: Disturbance,
    request: Request<'_, R>,
) -> Result<Report, Refusal>
    requires { Disturbed trace.samples.now disturbance }
    ensures { Delivered trace.entry.samples.now
        (asked R.ResponseRule.triggers R.ResponseRule.weighs request.entry) result }
{
    deliver(trace, disturbance, request)
}
