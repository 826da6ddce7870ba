//! Examples of scripts with the text of their answers: each call, each refusal by its number, and
//! lines that are not calls. The figures are those of the tests of deliveries, or were worked out
//! by hand as a comment shows.
//! They try docs/SCRIPTS.md.
#![tactic(auto)]

#[cfg(test)]
mod asking;
#[cfg(test)]
mod each_call;
#[cfg(test)]
mod lines;
#[cfg(test)]
mod refusals;
