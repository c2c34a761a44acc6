//! What an agent is: its record, and how far it is in its session.

ghost use Rattle.std.specs.Prelude.{◌≡◌, ◌<◌, ◌↔◌, true, [], IfOk, IsTrue};
ghost use Rattle.quantity.specs.Rows.{covers};
ghost use Rattle.cluster_model.specs.Agents.{owning, reopened, with_tasks};
ghost use Rattle.agent_core.specs.Drafts.{agent_of, former_of, without_tasks};
ghost use Rattle.agent_core.specs.Records.{HasRoom, is_record, with_other_tasks};

use crate::record::Record;
use crate::room::RecordWithRoom;
use messages::{RecordParts, RecordedTask};
use quantity::{Resources, covers_is_at_least};
use std::alloc::{AllocError, Global};
use stream_core::LinkIn;
use values::{Listed, Plain, Shared};

#[derive(Drop)]
pub struct State {
    pub durable: RecordWithRoom,
    pub in_session: bool,
    /// How many commands of the open session are applied.
    pub link: LinkIn,
}

/// What an agent is, with a part of its tasks.
#[derive(Drop)]
pub struct StateBefore {
    pub durable: RecordParts,
    pub in_session: bool,
    pub link: LinkIn,
}

impl State {
    pub fn parts(&self) -> &RecordParts
        ensures parts { result.now ≡ self.now.durable }
        ensures recorded { is_record self.now.durable ≡ true }
    {
        self.durable.record().parts()
    }

    pub fn tasks(&self) -> &[Shared<RecordedTask>]
        ensures { result.now ≡ self.now.durable.tasks }
    {
        self.parts().tasks.as_slice()
    }

    fn durable_with(&self, tasks: Vec<Shared<RecordedTask>>) -> Result<RecordParts, AllocError>
        ensures { IfOk result (λ d. d ≡ with_other_tasks self.now.durable tasks.items) }
    {
        let parts = self.parts();
        Ok(RecordParts {
            name: parts.name.copy()?,
            total: parts.total.copy()?,
            session: parts.session,
            run: parts.run,
            tasks: Listed::from_vec(tasks),
        })
    }

    /// With other tasks, which make a record and leave a room, and so many commands applied.
    pub fn with_tasks(
        &self,
        tasks: Vec<Shared<RecordedTask>>,
        link: LinkIn,
        room: Resources,
    ) -> Result<State, AllocError>
        requires recorded { is_record (with_other_tasks self.now.durable tasks.items) ≡ true }
        requires room { HasRoom room (with_other_tasks self.now.durable tasks.items) }
        ensures { IfOk result (λ s. agent_of s ≡ with_tasks (agent_of self.now) tasks.items link) }
    {
        let parts = self.durable_with(tasks)?;
        Ok(State {
            durable: RecordWithRoom::make(parts, room),
            in_session: self.in_session,
            link,
        })
    }

    /// With other tasks, which need make no record.
    pub fn former(&self, tasks: Vec<Shared<RecordedTask>>) -> Result<StateBefore, AllocError>
        ensures { IfOk result (λ f. former_of f
            ≡ with_tasks (agent_of self.now) tasks.items self.now.link) }
    {
        Ok(StateBefore {
            durable: self.durable_with(tasks)?,
            in_session: self.in_session,
            link: self.link,
        })
    }

    pub fn copy(&self) -> Result<State, AllocError>
        ensures { IfOk result (λ s. agent_of s ≡ agent_of self.now) }
    {
        Ok(State {
            durable: self.durable.copy()?,
            in_session: self.in_session,
            link: self.link,
        })
    }

    /// With a total that covers what the agent owns.
    pub fn owning(&self, total: Resources) -> Result<State, AllocError>
        requires { covers total self.now.durable.total ≡ true }
        ensures { IfOk result (λ s. agent_of s ≡ owning total (agent_of self.now)) }
    {
        covers_is_at_least();
        let mut parts = self.parts().copy()?;
        parts.total = total;
        Ok(State {
            durable: RecordWithRoom::of(Record::make(parts)),
            in_session: self.in_session,
            link: self.link,
        })
    }

    /// With this session opened with the master of a run.
    pub fn reopened(&self, session: u32, run: u32) -> Result<State, AllocError>
        requires { 0 < run }
        ensures { IfOk result (λ s. agent_of s ≡ reopened (agent_of self.now) session run) }
    {
        let mut parts = self.parts().copy()?;
        parts.session = session;
        parts.run = run;
        Ok(State {
            durable: RecordWithRoom::of(Record::make(parts)),
            in_session: true,
            link: LinkIn::new(),
        })
    }
}

impl StateBefore {
    /// Whether an agent is this one in all but its tasks.
    pub fn is_same_but_for_tasks(&self, other: &State) -> bool
        ensures { IsTrue result
            ↔ (with_tasks (former_of self.now) [] self.now.link ≡ without_tasks other.now) }
    {
        let parts = other.parts();
        self.in_session == other.in_session
            && self.link.count() == other.link.count()
            && self.durable.session == parts.session
            && self.durable.run == parts.run
            && self.durable.name.is_same(&parts.name)
            && self.durable.total.is_same(&parts.total)
    }
}
