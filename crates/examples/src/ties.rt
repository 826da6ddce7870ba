//! Powers halfway between two whole watts: half-up takes the greater one.
ghost use Rattle.std.specs.Prelude.{◌≡◌, true, false, pos, negsuc, Ok};
ghost use Rattle.examples.specs.Ties.{Tied, reading_of, sample_of};

use recording::reading::{FloatingReading, Reading};
use recording::refusal::Field;
use recording::sample::Sample;

// A reading of 50 Hz and this power in MW, at 0 ms.
fn reading_of(power: f32) -> Reading
    ensures { result ≡ reading_of power }
{
    Reading::Floating(FloatingReading {
        time: 0,
        frequency: 50.0,
        power,
    })
}

/// 0.0078125 MW is 7,813 W, and nothing else.
pub fn tie_up() -> Result<Sample, Field>
    ensures the_rule_gives_7813_watts_alone { Tied false (pos 7813) }
    ensures answers_7813_watts { result ≡ Ok (sample_of (pos 7813)) }
{
    reading_of(0.0078125).sample()
}

/// -0.0078125 MW is -7,812 W, and nothing else.
pub fn tie_down() -> Result<Sample, Field>
    ensures the_rule_gives_minus_7812_watts_alone { Tied true (negsuc 7811) }
    ensures answers_minus_7812_watts { result ≡ Ok (sample_of (negsuc 7811)) }
{
    reading_of(-0.0078125).sample()
}
