//! Examples of traces, disturbances, recoveries and trigger times. Every expected time was worked
//! out by hand from the slope of the line.
//! They try the rules of docs/RULES.md under Disturbance, recovery and trigger time.
#![tactic(auto)]

#[cfg(test)]
mod directions;
#[cfg(test)]
mod disturbances;
#[cfg(test)]
mod recoveries;
#[cfg(test)]
mod soundness;
#[cfg(test)]
mod traces;
#[cfg(test)]
mod triggers;
