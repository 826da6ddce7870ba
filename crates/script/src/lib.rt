//! Scripts of calls: what a line says.
//! For `fcas_replay`. docs/SCRIPTS.md states the lines.
#![tactic(auto)]

pub mod command;
mod figures;
pub mod line;
mod saying;
pub mod verb;
