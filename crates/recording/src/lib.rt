//! Recordings: readings, samples, the interface of recordings, the two makes of recorder, and every
//! refusal of the engine.
//! For programs that read a recorder, and for all crates above. docs/RULES.md states the rules
//! under Samples, Readings, Recordings and Refusals.
#![tactic(auto)]

pub mod fault;
mod floats;
pub mod interface;
pub mod makes;
pub mod reading;
pub mod refusal;
pub mod sample;
