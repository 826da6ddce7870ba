//! The report of a recording: its six deliveries, and the text that `fcas_report` prints.
//! For operators. docs/RULES.md states the rules under The programs.
#![tactic(auto)]

pub mod report;
pub mod run;
pub mod settlement;
pub mod text;
