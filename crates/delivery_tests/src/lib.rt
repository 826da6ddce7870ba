//! Tests of the delivered figure. Every expected figure comes from an independent calculation in
//! exact fractions, which finds each first millisecond by trying every millisecond; some were also
//! worked out by hand, as a comment shows.
//! `python3 tools/figures.py`, at the top of the repository, reads the cases from these files and
//! works each figure out again. It follows plain code only: a helper with a loop, a closure or a
//! match must be added to it by hand.
//! They try the rules of docs/RULES.md under The delivered figure.
#![tactic(auto)]

#[cfg(test)]
mod asking;
#[cfg(test)]
mod bases;
#[cfg(test)]
mod disturbances;
#[cfg(test)]
mod gaps;
#[cfg(test)]
mod high;
#[cfg(test)]
mod long;
#[cfg(test)]
mod records;
#[cfg(test)]
mod recoveries;
#[cfg(test)]
mod refusals;
#[cfg(test)]
mod rounding;
#[cfg(test)]
mod rules;
#[cfg(test)]
mod shifts;
#[cfg(test)]
mod targets;
#[cfg(test)]
mod verdicts;
#[cfg(test)]
mod weights;
#[cfg(test)]
mod whole_windows;
