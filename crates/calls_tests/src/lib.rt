//! Examples of lists of calls on one docket, and of deliveries on a closed docket. The figures are
//! those of the tests of deliveries, or were worked out by hand as a comment shows.
//! They try the rules of docs/RULES.md under Lists of calls and Dockets.
#![tactic(auto)]

#[cfg(test)]
mod asking;
#[cfg(test)]
mod days;
#[cfg(test)]
mod tables;
