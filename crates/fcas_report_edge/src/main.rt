//! `fcas_report` again, since the gate runs each program on one input. In this one's recording the
//! network recovers at the very sample at which the battery steps back.
//! docs/EXAMPLE.md works it by hand.
#![tactic(auto)]

use report::run::run;

fn main(rt: HostRuntime) -> anyhow::Result<()> {
    run(&rt)
}
