//! The code that computes a delivery: `deliver::deliver`, for any response rule.
//! For dockets, and for callers with a sound record. docs/RULES.md states the steps under The
//! delivered figure and the defects there and under Refusals.
#![tactic(auto)]

mod base;
mod basis;
mod compensation;
mod defects;
pub mod deliver;
mod footing;
mod gaps;
mod judging;
mod points;
mod rounding;
mod shift;
mod spans;
mod targets;
mod values;
mod windows;
