//! Settings and trials, services and groups, and the response rules that weigh a response.
//! For owners, who choose the settings, and for deliveries. docs/RULES.md states the rules under
//! Settings and trials, Services and groups, and Response rules.
#![tactic(auto)]

pub mod base;
pub mod chosen;
pub mod group;
pub mod limits;
pub mod rule;
pub mod service;
pub mod settings;
pub mod setup;
pub mod switching;
pub mod task;
pub mod trial;
pub mod variable;
pub mod weighing;
pub mod worked;
