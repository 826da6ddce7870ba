//! The frequency disturbance on a trace of samples: its time and direction, the dip and the push,
//! the recovery and the trigger time.
//! For dockets and deliveries. docs/RULES.md states the rules under Disturbance, recovery and
//! trigger time.
#![tactic(auto)]

mod band;
mod crossing;
pub mod direction;
pub mod disturbance;
pub mod line;
mod passing;
pub mod recovery;
mod scan;
mod stretch;
pub mod trace;
pub mod trigger;
pub mod turning;
pub mod worked;
