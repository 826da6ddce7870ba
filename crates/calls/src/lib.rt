//! Calls on a docket in either state, and lists of calls on a new docket.
//! For programs that choose their calls at run time. docs/RULES.md states the rules under Lists of
//! calls.
#![tactic(auto)]

pub mod answer;
pub mod call;
pub mod laws;
pub mod run;
pub mod turn;
