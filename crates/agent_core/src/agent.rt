//! Agents.

ghost use Rattle.std.specs.Prelude.{◌≡◌, ◌≢◌, true, Ok, IfOk, IfErr};
ghost use Rattle.cluster_model.specs.Agents.{next_of, recovered, recovered_from};
ghost use Rattle.agent_core.specs.Drafts.{IsRefusal, is_in_order};
ghost use Rattle.agent_core.specs.declared.fault.AgentFault.TheVariants.{StaleDraft};

use crate::causes::hello_names_run;
use crate::draft::Draft;
use crate::fault::AgentFault;
use crate::record::Record;
use crate::room::RecordWithRoom;
use crate::state::State;
use messages::{AgentMail, Cause};
use std::alloc::Global;
use std::marker::Model;
use stream_core::LinkIn;

/// An agent that runs over its record. It changes by a commit alone.
pub struct Agent {
    state: State,
}

// By hand, so that the proof of who drops one visits none of its parts.
impl Drop for Agent {
    fn drop(self) {
        let Agent { state: _ } = self;
    }
}

impl Model for Agent {
    ghost use Rattle.std.specs.Prelude.{◌≡◌, true};
    ghost use Rattle.cluster_model.specs.Agents as specs;
    ghost use Rattle.agent_core.specs.Drafts.{agent_of, is_with_run};

    ghost Value = { specs.Agent };

    ghost view = { λ a. agent_of a.state };

    ghost invariant = { λ a. is_with_run (agent_of a.state) ≡ true };
}

impl Agent {
    /// The agent that comes up over a record, with no open session. It takes no memory.
    pub fn recover(durable: Record) -> Agent
        ensures { result ≡ recovered_from durable }
    {
        Agent {
            state: State {
                durable: RecordWithRoom::of(durable),
                in_session: false,
                link: LinkIn::new(),
            },
        }
    }

    /// The agent's record. It takes no memory.
    pub fn durable(&self) -> &Record
        ensures { result.now ≡ self.now.durable }
    {
        self.state.durable.record()
    }

    /// Whether it has an open session. It takes no memory.
    pub fn is_in_session(&self) -> bool
        ensures { result ≡ self.now.in_session }
    {
        self.state.in_session
    }

    /// Stops, and comes up again over its record, with no open session. It takes no memory.
    pub fn stop(&mut self)
        ensures { self.new ≡ recovered self.old }
    {
        self.state.in_session = false;
        self.state.link = LinkIn::new();
    }

    /// Stops once a draft's record was saved, and comes up again over that,
    /// with no open session. It takes no memory.
    pub fn stop_with(&mut self, draft: Draft)
        ensures { self.new ≡ recovered draft.draft.after }
    {
        let saved = draft.into_next();
        self.state = saved.after;
        self.stop();
    }

    /// Whether a cause is in order: where it is the next command of the open session, it launches
    /// no task under a key that is in the record.
    pub fn is_in_order(&self, cause: &Cause) -> bool
        ensures { result ≡ is_in_order self.now cause.now }
    {
        match cause {
            Cause::Mail(to) => !to.agent.is(&self.state.parts().name)
                || self.state.receives_in_order(&to.mail),
            _ => true,
        }
    }

    /// Prepares what a cause makes of the agent, which doesn't change. It is refused with
    ///
    /// - `A1 NotForMe` at a mail for another agent,
    /// - `A2 OldSession` at a Hello of an older run, a command of another session, or a start
    ///   before the first session,
    /// - `A3 NotNext` at a command after the next one,
    /// - `A4 NoSuchTask` and `A5 Ended` at a state of a task that isn't in the record or has ended,
    /// - `A6 NoRoom` at a Launch of more than the agent's total less its live tasks,
    /// - `A9 UpdatesFull` at a state that isn't terminal, of a task with 4,095 updates,
    /// - `A10 SessionsSpent` where the next session would be the 4,294,967,296th,
    /// - `A11 TotalLess`, after A2 and before A10, at a start with a total that doesn't cover what
    ///   the agent owns,
    /// - `A8 OutOfMemory` in place of a draft or of A6, and of no other.
    ///
    /// The caller owes that the key of a Launch that is the next command of the open session isn't
    /// in the record.
    pub fn next(&self, alloc: Global, cause: Cause) -> Result<Draft, AgentFault>
        requires { is_in_order self.now cause ≡ true }
        ensures draft { IfOk result (λ d. next_of self.now cause ≡ Ok d.draft) }
        ensures before { IfOk result (λ d. d.before ≡ self.now) }
        ensures refused { IfErr result (IsRefusal (next_of self.now cause)) }
    {
        hello_names_run(&cause);
        let kept = self.state.kept_first(&cause);
        let next = self.state.next(alloc, cause)?;
        Ok(Draft::of(alloc, &self.state, next, kept)?)
    }

    /// Makes a draft's record the agent's, and returns the draft's mails,
    /// which are to be sent. It takes no memory.
    ///
    /// `A7 StaleDraft` where the agent isn't what the draft was prepared for: then nothing changes,
    /// and the draft is returned.
    pub fn commit(&mut self, draft: Draft) -> Result<Vec<AgentMail>, (Draft, AgentFault)>
        ensures current { IfOk result (λ mails. draft.before ≡ self.old) }
        ensures changed { IfOk result (λ mails. self.new ≡ draft.draft.after) }
        ensures mails { IfOk result (λ mails. mails.items ≡ draft.draft.mails) }
        ensures stale { IfErr result (λ e. (draft.before ≢ self.old) × (e.1 ≡ StaleDraft)) }
        ensures handed_back { IfErr result (λ e. e.0 ≡ draft) }
        ensures unchanged { IfErr result (λ e. self.new ≡ self.old) }
    {
        if !draft.is_current(&self.state) {
            return Err((draft, AgentFault::StaleDraft));
        }
        Ok(self.adopt(draft))
    }

    /// Makes the record of a draft that was prepared for the agent as it is the agent's, and
    /// returns the draft's mails, which are to be sent. It takes no memory, and compares nothing.
    pub fn adopt(&mut self, draft: Draft) -> Vec<AgentMail>
        requires current { draft.before ≡ self.old }
        ensures changed { self.new ≡ draft.draft.after }
        ensures mails { result.items ≡ draft.draft.mails }
    {
        let next = draft.into_next();
        self.state = next.after;
        next.mails
    }
}
