//! Dockets: the samples of one disturbance in the caller's table, open while samples are collected,
//! closed for deliveries.
//! For plant controllers, which need no heap. docs/RULES.md states the calls under Dockets.
#![tactic(auto)]

mod closing;
mod delivering;
pub mod docket;
mod loading;
mod putting;
pub mod records;
