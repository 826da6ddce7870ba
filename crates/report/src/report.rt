//! The report of a recording in whole units, from its bytes to its text.
ghost use Rattle.std.specs.Prelude.{◌≡◌, ℕ, List, IfOk, string_bytes};
ghost use Rattle.report.specs.Reports.{variable_of, Reports};

use crate::settlement::settle;
use crate::text::outcome_text;
use recording::makes::{ByteRecording, Make};
use recording::sample::Sample;
use response::settings::Settings;
use response::variable::Variable;
use std::alloc::{AllocError, Global};
use timeline::sample::MOST_SAMPLES;

// What every place of the table holds at first. A new docket does not count it.
const BLANK: Sample = Sample {
    time: 0,
    frequency: 0,
    power: 0,
};

// The variable rule with the ramp rate of the settings.
fn variable_rule(settings: &Settings) -> Variable
    ensures { result ≡ variable_of settings.now }
{
    let response = settings.response;
    Variable {
        response,
        rate: response.rate,
    }
}

/// The text of the report of a recording in whole units, with plain settings, the variable rule, no
/// targets and 0 W enabled. A refusal is text too; the error means that the heap is full.
pub fn report(heap: Global, bytes: &[u8]) -> Result<String, AllocError>
    ensures text_of_the_six_deliveries_or_the_refusal { IfOk result (λ s. Reports bytes.now (string_bytes s)) }
    ensures no_other_text { IfOk result (λ s. ((t : List ℕ) → Reports bytes.now t → t ≡ string_bytes s)) }
{
    // A place for each sample that a docket may hold.
    let mut table = vec![in heap; BLANK; MOST_SAMPLES]?;
    let recording = ByteRecording::new(Make::Whole, bytes);
    let settings = Settings::plain();
    let rule = variable_rule(&settings);
    let outcome = settle(table.as_mut_slice(), &recording, &settings, &rule);
    outcome_text(heap, outcome)
}
