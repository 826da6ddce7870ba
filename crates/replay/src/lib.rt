//! Replays of scripts: what each line does in a session, and the text of the answers.
//! For `fcas_replay`. docs/SCRIPTS.md states the lines and the answers.
#![tactic(auto)]

pub mod desk;
pub mod plan;
pub mod replay;
pub mod reply;
pub mod run;
pub mod session;
mod text;
