//! `fcas_report` again, since the gate runs each program on one input. This one's recording has no
//! disturbance.
//! docs/RULES.md states the rules under The programs.
#![tactic(auto)]

use report::run::run;

fn main(rt: HostRuntime) -> anyhow::Result<()> {
    run(&rt)
}
