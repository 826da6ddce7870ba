//! Prints the answers to the script of calls on standard input.
//! For operators and for tests of the engine. docs/RULES.md states the rules under The programs,
//! docs/SCRIPTS.md the lines.
#![tactic(auto)]

use replay::run::run;

fn main(rt: HostRuntime) -> anyhow::Result<()> {
    run(&rt)
}
