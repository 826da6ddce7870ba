//! A session: a docket with its table, and what deliveries are made with.
ghost use Rattle.std.specs.Prelude.{◌≡◌, None, IfOk};
ghost use Rattle.replay.specs.Sessions.{Fresh, Acts, PutsBack, Tries, Loads, digits_of, Delivers, DeliversFor};

use crate::desk::Desk;
use crate::plan::Plan;
use crate::reply::Reply;
use calls::call::Call;
use figure::request::Enablement;
use hex::FromHexError;
use recording::makes::Make;
use response::base::BaseWindow;
use response::service::Service;
use response::settings::Settings;
use response::trial::Trial;
use script::command::Command;
use std::alloc::{AllocError, Global};
use timeline::sample::MOST_SAMPLES;

/// The state between the lines of a script.
#[derive(Drop)]
pub struct Session {
    /// The docket and its table.
    pub desk: Desk,
    /// The settings of deliveries, without the trial's window.
    pub settings: Settings,
    /// The base window of the trial of each delivery, or none.
    pub trial: Option<BaseWindow>,
    /// The targets and the response rule.
    pub plan: Plan,
}

impl Session {
    /// A new docket, a table of 4,096 blank places, the plain settings, no trial, no targets and
    /// the variable rule. The error means that the heap is full.
    pub fn new(heap: Global) -> Result<Session, AllocError>
        ensures starts_fresh_with_plain_settings { IfOk result Fresh }
    {
        Ok(Session {
            desk: Desk::new(heap, MOST_SAMPLES)?,
            settings: Settings::plain(),
            trial: None,
            plan: Plan::new(),
        })
    }

    /// Does what a command says, and replies to it. Refusals are replies; the error means that the
    /// heap is full.
    pub fn act(&mut self, heap: Global, command: Command<'_>) -> Result<Reply, AllocError>
        ensures replies_and_acts_as_the_line_says { IfOk result (λ reply. Acts self.old command.entry reply self.new) }
        ensures every_trial_puts_the_former_settings_back { IfOk result (λ _. PutsBack self.old command.entry self.new) }
    {
        Ok(match command {
            Command::New => self.desk.change_docket(),
            Command::Places(places) => self.desk.change_table(heap, places)?,
            Command::Settings(proposal) => self.settings.change(proposal).into(),
            Command::Trial(begin, end) => self.begin_trial(begin, end),
            Command::TrialEnd => self.end_trial(),
            Command::TargetTable => self.plan.change_table(),
            Command::TargetPut(target) => Reply::Told(self.plan.put(target).into()),
            Command::TargetAmend(place, target) => {
                Reply::Told(self.plan.amend(place, target).into())
            }
            Command::TargetStrike(place) => Reply::Told(self.plan.strike(place).into()),
            Command::Rule(choice) => {
                self.plan.rule = choice;
                Reply::Done
            }
            Command::Put(reading) => self.desk.call(Call::Put(reading)),
            Command::Amend(place, reading) => self.desk.call(Call::Amend(place, reading)),
            Command::Load(make, digits) => self.load(heap, make, digits)?,
            Command::Strike(place) => self.desk.call(Call::Strike(place)),
            Command::Close => self.desk.call(Call::Close),
            Command::Deliver(code, watts) => self.deliver(code, watts),
            Command::Reopen => self.desk.call(Call::Reopen),
        })
    }

    // Makes each later delivery in a trial of a window. Refusal 17 if it is outside its limits.
    fn begin_trial(&mut self, begin: u32, end: u32) -> Reply
        ensures { Tries self.old begin end result self.new }
    {
        match BaseWindow::new(begin, end) {
            Ok(window) => {
                self.trial = Some(window);
                Reply::Done
            }
            Err(refusal) => refusal.into(),
        }
    }

    // Makes later deliveries without a trial.
    fn end_trial(&mut self) -> Reply
        ensures reply { result ≡ Reply.Done }
        ensures leaves { self.new ≡ record (self.old) { trial = None } }
    {
        self.trial = None;
        Reply::Done
    }

    // Loads the recording whose bytes the digits write. Other text is not a call.
    fn load(&mut self, heap: Global, make: Make, digits: Option<&str>) -> Result<Reply, AllocError>
        ensures { IfOk result (λ reply. Loads self.old make (digits_of digits.entry) reply self.new) }
    {
        let digits = digits.unwrap_or("");
        match hex::decode(heap, digits) {
            Ok(bytes) => Ok(self.desk.load(make, bytes.as_slice())),
            Err(FromHexError::OutOfMemory) => Err(AllocError),
            Err(_) => Ok(Reply::NoCall),
        }
    }

    // Delivers the service with a code. Refusal 18 for any other text.
    fn deliver(&mut self, code: &str, watts: i64) -> Reply
        ensures { Delivers self.old code.now watts result self.new }
    {
        match Service::from_code(code) {
            Ok(service) => self.deliver_for(Enablement { service, watts }),
            Err(refusal) => refusal.into(),
        }
    }

    // Delivers for an enablement, in a trial if there is a window to try.
    fn deliver_for(&mut self, enablement: Enablement) -> Reply
        ensures { DeliversFor self.old enablement result self.new }
    {
        let Some(window) = self.trial else {
            return self.desk.deliver(&self.settings, &self.plan, enablement);
        };
        let trial = Trial::begin(&mut self.settings, window);
        self.desk.deliver(trial.settings(), &self.plan, enablement)
    }
}
