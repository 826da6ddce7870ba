//! Examples of readings, recordings and refusals. Expected values of floats were worked out outside
//! of the engine, in exact fractions of the float's own value.
//! They try the rules of docs/RULES.md under Readings, Recordings and Refusals.
#![tactic(auto)]

#[cfg(test)]
mod expected;
#[cfg(test)]
mod floating;
#[cfg(test)]
mod odd_positions;
#[cfg(test)]
mod recordings;
#[cfg(test)]
mod refusals;
#[cfg(test)]
mod whole;
