//! The text of a settlement, or of the refusal in its place.
ghost use Rattle.std.specs.Prelude.{◌≡◌, ◌++◌, Some, IfOk, codes, string_bytes};
ghost use Rattle.report.specs.Texts.{delivery_text, deliveries_text, outcome_text};

use crate::settlement::{Delivery, Settlement};
use recording::refusal::Refusal;
use std::alloc::{AllocError, Global};
use std::fmt;

// A line: the service, and the watts with the verdict or the refusal.
impl fmt::Display for Delivery {
    ghost output = { λ d. Some (delivery_text d) };

    fn fmt<W: fmt::Write>(&self, f: &mut fmt::Formatter<W>) -> fmt::Result {
        let service = self.service;
        match self.answer {
            Ok(report) => {
                let watts = report.delivery;
                let verdict = report.verdict;
                writeln!(f, "{service} {watts} {verdict}")
            }
            Err(refusal) => writeln!(f, "{service} {refusal}"),
        }
    }
}

// The text of a settlement: a header, and a line for each service.
fn settlement_text(heap: Global, settlement: Settlement) -> Result<String, AllocError>
    ensures { IfOk result (λ s. string_bytes s ≡ codes "service watts verdict\n" ++ deliveries_text settlement) }
{
    let [r6, l6, r60, l60, r5, l5] = settlement;
    format!(in heap; "service watts verdict\n{r6}{l6}{r60}{l60}{r5}{l5}")
}

/// The text of a settlement, a header and a line for each service; or of the refusal alone. The
/// error means that the heap is full.
pub fn outcome_text(
    heap: Global,
    outcome: Result<Settlement, Refusal>,
) -> Result<String, AllocError>
    ensures the_lines_of_the_deliveries_or_the_refusal { IfOk result (λ s. string_bytes s ≡ outcome_text outcome) }
{
    match outcome {
        Ok(settlement) => settlement_text(heap, settlement),
        Err(refusal) => format!(in heap; "{refusal}\n"),
    }
}
