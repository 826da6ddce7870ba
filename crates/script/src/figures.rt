//! The numbers of a line: decimal digits, and hexadecimal ones for floats and bytes.
ghost use Rattle.std.specs.Prelude.{◌≡◌, Decides};
ghost use Rattle.std.specs.Option.{SomeIff};
ghost use Rattle.script.specs.Figures.{IsNumber, number_of, IsPlace, IsTable, IsPower, power_of, IsAmount, amount_of, IsBits, float_of, IsBytes, IsTarget, target_of, IsWhole, whole_of, IsFloating, floating_of};

use recording::reading::{FloatingReading, Reading, WholeReading};
use std::num::f32_from_bits_with_nan;
use timeline::sample::MOST_SAMPLES;
use timeline::target::Target;

// A time in ms, a frequency in mHz or a setting.
pub(crate) fn number(word: &str) -> Option<u32>
    ensures { SomeIff result (IsNumber word.now) (number_of word.now) }
{
    word.parse().ok()
}

// A place.
pub(crate) fn place(word: &str) -> Option<usize>
    ensures { SomeIff result (IsPlace word.now) (number_of word.now) }
{
    word.parse().ok()
}

// The number of places of a new table: at most the samples that a docket may hold.
pub(crate) fn table(word: &str) -> Option<usize>
    ensures { SomeIff result (IsTable word.now) (number_of word.now) }
{
    let places = place(word)?;
    if places > MOST_SAMPLES {
        return None;
    }
    Some(places)
}

// A power in W, which may be negative.
fn power(word: &str) -> Option<i32>
    ensures { SomeIff result (IsPower word.now) (power_of word.now) }
{
    word.parse().ok()
}

// An enabled amount in W.
pub(crate) fn amount(word: &str) -> Option<i64>
    ensures { SomeIff result (IsAmount word.now) (amount_of word.now) }
{
    word.parse().ok()
}

// A float, from its 32 bits in hexadecimal digits.
fn float(word: &str) -> Option<f32>
    ensures { SomeIff result (IsBits word.now) (float_of word.now) }
{
    let bits = u32::from_str_radix(word, 16).ok()?;
    Some(f32_from_bits_with_nan(bits))
}

// Whether a word is a list of bytes, two hexadecimal digits each.
pub(crate) fn is_bytes(word: &str) -> bool
    ensures { Decides result (IsBytes word.now) }
{
    word.len() % 2 == 0
        && word
            .as_bytes()
            .iter()
            .all(|digit| digit.is_ascii_hexdigit())
}

// A dispatch target: its time in ms and its power in W.
pub(crate) fn target(time: &str, watts: &str) -> Option<Target>
    ensures { SomeIff result (IsTarget time.now watts.now) (target_of time.now watts.now) }
{
    let time = number(time)?;
    let power = power(watts)?;
    Some(Target { time, power })
}

// A reading in whole units.
pub(crate) fn whole(time: &str, frequency: &str, watts: &str) -> Option<Reading>
    ensures { SomeIff result (IsWhole time.now frequency.now watts.now) (whole_of time.now frequency.now watts.now) }
{
    let time = number(time)?;
    let frequency = number(frequency)?;
    let power = power(watts)?;
    Some(Reading::Whole(WholeReading {
        time,
        frequency,
        power,
    }))
}

// A reading in floats.
pub(crate) fn floating(time: &str, frequency: &str, power: &str) -> Option<Reading>
    ensures { SomeIff result (IsFloating time.now frequency.now power.now) (floating_of time.now frequency.now power.now) }
{
    let time = number(time)?;
    let frequency = float(frequency)?;
    let power = float(power)?;
    Some(Reading::Floating(FloatingReading {
        time,
        frequency,
        power,
    }))
}
