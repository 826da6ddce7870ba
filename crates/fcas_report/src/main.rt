//! Prints the deliveries of the recording on standard input.
//! For operators. docs/RULES.md states the rules under The programs.
#![tactic(auto)]

use report::run::run;

fn main(rt: HostRuntime) -> anyhow::Result<()> {
    run(&rt)
}
