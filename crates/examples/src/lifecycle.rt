//! A docket through its states. A docket that is moved cannot be used again, and each state has its
//! own calls.
ghost use Rattle.std.specs.Prelude.{◌≡◌};

use docket::docket::{Kept, OpenDocket};
use recording::sample::Sample;

/// A docket closed and opened again, or handed back if it cannot be closed, has the samples that it
/// had.
pub fn closed_and_reopened(docket: OpenDocket, table: &[Sample]) -> OpenDocket
    ensures counts_as_many_samples_as_before { result.count ≡ docket.count }
{
    match docket.close(table) {
        Ok(closed) => closed.reopen(),
        Err(Kept { docket, refusal: _ }) => docket,
    }
}
