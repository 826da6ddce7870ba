//! The worked examples of the rules as proved statements, and tests of the printed text.
//! For readers of docs/RULES.md and docs/EXAMPLE.md, which show the same examples.
#![tactic(auto)]

pub mod lifecycle;
#[cfg(test)]
mod texts;
pub mod ties;
pub mod worked;
