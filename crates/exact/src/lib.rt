//! Exact numbers: fractions, half-up, means, straight lines and averages over time, with their
//! laws. Nothing here is computed at run time.
//! For every crate that states a figure. docs/RULES.md states half-up at its head.
#![tactic(auto)]

ghost use Rattle.exact.specs.Rounding.{Rounds};
ghost use Rattle.exact.specs.Averages.{Levels, EvenChanges};

/// Half-up of a fraction is exactly one whole number; adding a whole number to the fraction adds it
/// to its half-up.
pub fn half_up_laws()
    ensures half_up_is_one_number_and_moves_with_wholes { Rounds }
{}

/// A constant value stays what it is: its mean, the line through it and its average over time.
pub fn level_laws()
    ensures level_values_stay_as_they_are { Levels }
{}

/// What changes evenly averages to its middle; the mean of joined lists weighs each by its length.
pub fn even_laws()
    ensures even_changes_average_to_their_middle_and_means_join { EvenChanges }
{}
