//! Examples of timelines and dockets. Every expected count, refusal and table was worked out by
//! hand.
//! They try the rules of docs/RULES.md under Timelines, Dockets and Refusals.
#![tactic(auto)]

#[cfg(test)]
mod amending;
#[cfg(test)]
mod closing;
#[cfg(test)]
mod expected;
#[cfg(test)]
mod full;
#[cfg(test)]
mod loading;
#[cfg(test)]
mod other_tables;
#[cfg(test)]
mod putting;
#[cfg(test)]
mod records;
#[cfg(test)]
mod striking;
#[cfg(test)]
mod targets;
