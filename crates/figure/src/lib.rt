//! The delivered figure: its definitions, the request, the report, and the laws of the figure. The
//! code that computes it is in `delivery`.
//! For settlement. docs/RULES.md states the rules under The delivered figure.
#![tactic(auto)]

pub mod laws;
pub mod point;
pub mod report;
pub mod request;
pub mod span;
pub mod worked;
