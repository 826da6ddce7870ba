//! Tests of settings, trials, services and response rules, with answers worked out by hand.
//! They try the rules of docs/RULES.md under Settings and trials, Services and groups, and Response
//! rules.
#![tactic(auto)]

#[cfg(test)]
mod services;
#[cfg(test)]
mod settings;
#[cfg(test)]
mod trials;
#[cfg(test)]
mod weights;
