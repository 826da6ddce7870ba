//! A plan: the dispatch targets and the chosen response rule.
ghost use Rattle.std.specs.Prelude.{◌≡◌};
ghost use Rattle.timeline.specs.Targets.{targets};
ghost use Rattle.timeline.specs.Timelines.{Puts, Amends, Strikes};
ghost use Rattle.docket.specs.Dockets.{count_after};
ghost use Rattle.replay.specs.Plans.{blank_targets, empty_plan, rule_by};

use crate::reply::Reply;
use recording::refusal::Refusal;
use response::chosen::Rule;
use response::settings::Settings;
use response::switching::Switching;
use response::variable::Variable;
use script::command::Choice;
use timeline::target::{MOST_TARGETS, Target};
use timeline::timeline::Timeline;

/// What deliveries are made with, beside the settings.
#[derive(Clone, Copy)]
pub struct Plan {
    /// The targets' table.
    pub targets: [Target; MOST_TARGETS],
    /// The number of targets.
    pub count: usize,
    /// The chosen response rule.
    pub rule: Choice,
}

// What every place of the targets' table holds at first.
const BLANK: Target = Target { time: 0, power: 0 };

impl Plan {
    // A plan without targets, and with the variable rule.
    pub(crate) fn new() -> Plan
        ensures { result ≡ empty_plan }
    {
        Plan {
            targets: [BLANK; MOST_TARGETS],
            count: 0,
            rule: Choice::Variable,
        }
    }

    // Makes a new targets' table. The count stays.
    pub(crate) fn change_table(&mut self) -> Reply
        ensures reply { result ≡ Reply.Done }
        ensures targets { self.new ≡ record (self.old) { targets = blank_targets } }
    {
        self.targets = [BLANK; MOST_TARGETS];
        Reply::Done
    }

    // Adds a target at the end, and answers the new count.
    pub(crate) fn put(&mut self, target: Target) -> Result<usize, Refusal>
        ensures outcome { Puts targets self.old.count self.old.targets target result self.new.targets }
        ensures count { self.new.count ≡ count_after result self.old.count }
        ensures rule { self.new.rule ≡ self.old.rule }
    {
        let count = self.count;
        let table: &mut [Target] = &mut self.targets;
        let answer = Timeline { table, count }.put(target);
        self.count = answer.unwrap_or(count);
        answer
    }

    // Replaces the target at a place, and answers the count.
    pub(crate) fn amend(&mut self, place: usize, target: Target) -> Result<usize, Refusal>
        ensures outcome { Amends targets self.old.count self.old.targets place target result self.new.targets }
        ensures count { self.new.count ≡ count_after result self.old.count }
        ensures rule { self.new.rule ≡ self.old.rule }
    {
        let count = self.count;
        let table: &mut [Target] = &mut self.targets;
        let answer = Timeline { table, count }.amend(place, target);
        self.count = answer.unwrap_or(count);
        answer
    }

    // Removes the target at a place, and answers the new count.
    pub(crate) fn strike(&mut self, place: usize) -> Result<usize, Refusal>
        ensures outcome { Strikes targets self.old.count self.old.targets place result self.new.targets }
        ensures count { self.new.count ≡ count_after result self.old.count }
        ensures rule { self.new.rule ≡ self.old.rule }
    {
        let count = self.count;
        let table: &mut [Target] = &mut self.targets;
        let answer = Timeline { table, count }.strike(place);
        self.count = answer.unwrap_or(count);
        answer
    }

    // The chosen rule, with the numbers of the settings.
    pub(crate) fn rule_by(&self, settings: &Settings) -> Rule
        ensures { result ≡ rule_by self.now.rule settings.now }
    {
        let response = settings.response;
        match self.rule {
            Choice::Variable => Rule::Variable(Variable {
                response,
                rate: response.rate,
            }),
            Choice::Switching => Rule::Switching(Switching { response }),
        }
    }
}
