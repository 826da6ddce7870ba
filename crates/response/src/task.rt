//! Work that needs settings, and that can be done in a trial.
ghost use Rattle.std.specs.Prelude.{◌≡◌, Result as Outcome};
ghost use Rattle.recording.specs.declared.refusal.Refusal.{Refusal as Refused};
ghost use Rattle.response.specs.declared.settings.Settings.{Settings as Given};

use crate::settings::Settings;
use recording::refusal::Refusal;

/// A task means what it gives with each settings. It is a trait, since a function that calls a
/// closure must require that it may be called, and no public function requires anything.
pub trait Task {
    type Answer: Drop;

    ghost gives: { Self → Given → Outcome Self.Answer Refused };

    /// The answer, or the refusal, with these settings.
    fn run(&self, settings: &Settings) -> Result<Self::Answer, Refusal>
        ensures answers_what_the_task_gives { result ≡ gives self.now settings.now };
}
