//! Commands: what the lines of a script say.
use recording::makes::Make;
use recording::reading::Reading;
use response::settings::Proposal;
use timeline::target::Target;

/// A response rule, as a script chooses it. Its numbers are those of the settings.
#[derive(Clone, Copy, Debug, PartialEq, Eq)]
pub enum Choice {
    Variable,
    Switching,
}

/// One line of a script: a call on the docket, or a choice for later calls.
#[derive(Clone, Copy)]
pub enum Command<'a> {
    /// A new docket, without samples. The table stays.
    New,
    /// A new table with this number of places. The docket stays.
    Places(usize),
    /// New settings for later deliveries.
    Settings(Proposal),
    /// A base window for the trial of each later delivery, in ms before the disturbance time.
    Trial(u32, u32),
    /// Later deliveries are made without a trial.
    TrialEnd,
    /// A new targets' table, whose places are blank. The count of targets stays.
    TargetTable,
    /// A target for the end of the targets' table.
    TargetPut(Target),
    /// The place of a target, and its replacement.
    TargetAmend(usize, Target),
    /// The place of a target to remove.
    TargetStrike(usize),
    /// The response rule of later deliveries.
    Rule(Choice),
    /// A reading for the end of the docket.
    Put(Reading),
    /// The place of a sample, and its replacement.
    Amend(usize, Reading),
    /// The bytes of a recording, two hexadecimal digits each; none for no bytes.
    Load(Make, Option<&'a str>),
    /// The place of a sample to remove.
    Strike(usize),
    /// Closes the docket.
    Close,
    /// A service's code and the enabled amount in W.
    Deliver(&'a str, i64),
    /// Opens the docket again.
    Reopen,
}
