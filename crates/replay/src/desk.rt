//! A docket and its table, for calls one after the other.
ghost use Rattle.std.specs.Prelude.{◌≡◌, ℕ, List, IfOk, length, replicate};
ghost use Rattle.recording.specs.declared.interface.Member.{Member as Item};
ghost use Rattle.recording.specs.Makes.{Recorded};
ghost use Rattle.docket.specs.Calls.{of_open, of_closed, load, deliver};
ghost use Rattle.calls.specs.Outcomes.{open_with};
ghost use Rattle.replay.specs.Plans.{asked_under};
ghost use Rattle.replay.specs.Desks.{meant, Called, blank_table};

use crate::plan::Plan;
use crate::reply::Reply;
use calls::call::Call;
use calls::turn::take;
use docket::docket::{OpenDocket, State};
use figure::request::{Enablement, Request};
use recording::makes::{ByteRecording, Make};
use recording::sample::Sample;
use response::chosen::Rule;
use response::settings::Settings;
use std::alloc::{AllocError, Global};
use std::mem;

// What every place of a new table holds.
const BLANK: Sample = Sample {
    time: 0,
    frequency: 0,
    power: 0,
};

/// A docket in either state, and a table that need not be the docket's own.
#[derive(Drop)]
pub struct Desk {
    /// The table for the docket's samples.
    pub table: Vec<Sample>,
    /// The docket.
    pub state: State,
}

impl Desk {
    // A new docket, and a new table with this number of places.
    pub(crate) fn new(heap: Global, places: usize) -> Result<Desk, AllocError>
        ensures { IfOk result (λ desk. (desk.table.items ≡ blank_table places) × (desk.state ≡ open_with 0)) }
    {
        Ok(Desk {
            table: vec![in heap; BLANK; places]?,
            state: State::Open(OpenDocket::new()),
        })
    }

    // Makes a new table with this number of places. The docket stays.
    pub(crate) fn change_table(&mut self, heap: Global, places: usize) -> Result<Reply, AllocError>
        ensures { IfOk result (λ reply. (reply ≡ Reply.Done) × (self.new.table.items ≡ blank_table places)
            × (self.new.state ≡ self.old.state)) }
    {
        self.table = vec![in heap; BLANK; places]?;
        Ok(Reply::Done)
    }

    // Makes a new docket. The table stays.
    pub(crate) fn change_docket(&mut self) -> Reply
        ensures reply { result ≡ Reply.Done }
        ensures table { self.new.table ≡ self.old.table }
        ensures state { self.new.state ≡ open_with 0 }
    {
        self.state = State::Open(OpenDocket::new());
        Reply::Done
    }

    // Makes one call on the docket and its table.
    pub(crate) fn call(&mut self, call: Call<'_, ByteRecording<'_>, Rule>) -> Reply
        ensures { Called self.old (meant call.entry) result self.new }
    {
        let state = mem::replace(&mut self.state, State::Open(OpenDocket::new()));
        let turn = take(state, self.table.as_mut_slice(), call);
        self.state = turn.state;
        turn.answer.into()
    }

    // Loads the recording of these bytes.
    pub(crate) fn load(&mut self, make: Make, bytes: &[u8]) -> Reply
        ensures { (ms : List Item) → Recorded make bytes.now ms → Called self.old (of_open (load ms)) result self.new }
    {
        let recording = ByteRecording::new(make, bytes);
        self.call(Call::Load(&recording))
    }

    // Delivers for an enablement, with settings and a plan.
    pub(crate) fn deliver(
        &mut self,
        settings: &Settings,
        plan: &Plan,
        enablement: Enablement,
    ) -> Reply
        ensures { Called self.old (of_closed (deliver (asked_under settings.now plan.now enablement)))
            result self.new }
    {
        let rule = plan.rule_by(settings);
        self.call(Call::Deliver(Request {
            settings,
            rule: &rule,
            targets: &plan.targets,
            count: plan.count,
            enablement,
        }))
    }
}
