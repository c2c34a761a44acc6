//! Drafts: what an agent would be and would send.

ghost use Rattle.std.specs.Prelude.{◌≡◌, ◌↔◌, ◌≤◌, true, IsTrue, IfOk, length, take};
ghost use Rattle.agent_core.specs.Drafts.{agent_of, is_with_run, next_draft};

use crate::commands::Next;
use crate::differences::is_spliced;
use crate::record::Record;
use crate::state::{State, StateBefore};
use messages::AgentMail;
use std::alloc::{AllocError, Global};
use std::marker::Model;
use values::copies_of;

/// A change of an agent, prepared and not yet made:
/// its record is to be saved before it is committed.
#[derive(Drop)]
pub struct Draft {
    /// What the agent is, with a part of its tasks alone.
    before: StateBefore,
    /// Where these tasks are: before and after that the draft's tasks are the agent's.
    from: usize,
    to: usize,
    after: State,
    mails: Vec<AgentMail>,
}

impl Model for Draft {
    ghost use Rattle.std.specs.Prelude.{◌≡◌, ◌≤◌, true, length};
    ghost use Rattle.cluster_model.specs.Agents.{with_tasks};
    ghost use Rattle.agent_core.specs.Drafts.{agent_of, former_of, is_with_run};
    ghost use Rattle.agent_core.specs.Prepared.{Prepared, spliced};

    ghost Value = { Prepared };

    ghost view = { λ d. record {
      before = with_tasks (former_of d.before)
          (spliced d.from d.to d.after.durable.tasks d.before.durable.tasks) d.before.link;
      draft = record { after = agent_of d.after; mails = d.mails.items };
    } };

    ghost invariant = { λ d. (d.from ≤ d.to) × (d.to ≤ length d.after.durable.tasks)
        × (is_with_run (agent_of d.after) ≡ true) };
}

impl Draft {
    /// The draft of what an agent would be, whose first so many tasks stay as they are.
    pub(crate) fn of(
        alloc: Global,
        state: &State,
        next: Next,
        kept: usize,
    ) -> Result<Draft, AllocError>
        requires run { is_with_run (agent_of next.after) ≡ true }
        requires within { kept ≤ length state.now.durable.tasks }
        requires kept { take kept state.now.durable.tasks ≡ take kept next.after.durable.tasks }
        ensures { IfOk result
            (λ d. d ≡ record { before = agent_of state.now; draft = next_draft next }) }
    {
        let tasks = state.tasks();
        let part = copies_of(alloc, &tasks[kept..])?;
        let to = next.after.tasks().len();
        Ok(Draft {
            before: state.former(part)?,
            from: kept,
            to,
            after: next.after,
            mails: next.mails,
        })
    }

    /// Whether it was prepared for an agent that is as this one.
    pub(crate) fn is_current(&self, state: &State) -> bool
        ensures { IsTrue result ↔ (self.now.before ≡ agent_of state.now) }
    {
        self.before.is_same_but_for_tasks(state)
            && is_spliced(
                state.tasks(),
                self.from,
                self.to,
                self.after.tasks(),
                self.before.durable.tasks.as_slice(),
            )
    }

    /// What the agent becomes, and the mails that it sends.
    pub(crate) fn into_next(self) -> Next
        ensures draft { next_draft result ≡ self.draft }
        ensures run { is_with_run self.draft.after ≡ true }
    {
        Next {
            after: self.after,
            mails: self.mails,
        }
    }

    /// The record that is to be saved. It takes no memory.
    pub fn durable(&self) -> &Record
        ensures { result.now ≡ self.now.draft.after.durable }
    {
        self.after.durable.record()
    }

    /// The mails that the commit will return. It takes no memory.
    pub fn mails(&self) -> &[AgentMail]
        ensures { result.now ≡ self.now.draft.mails }
    {
        self.mails.as_slice()
    }
}
