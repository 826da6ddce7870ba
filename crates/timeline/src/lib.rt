//! Timelines: put, amend and strike of entries in order of their times, in the caller's table.
//! For samples and dispatch targets. docs/RULES.md states the rules under Timelines.
#![tactic(auto)]

pub mod end;
pub mod entry;
pub mod fault;
pub mod order;
pub mod sample;
pub mod target;
pub mod timeline;
