//! The mails of an agent: its Report, and the updates that aren't acknowledged.

ghost use Rattle.std.specs.Prelude.{◌≡◌, ◌++◌, IfOk, OnOk};
ghost use Rattle.cluster_model.specs.Agents.{fronts, report_of};
ghost use Rattle.agent_core.specs.Drafts.{agent_of};

use crate::state::State;
use crate::tasks::{all_reported, push_fronts};
use messages::AgentMail;
use std::alloc::{AllocError, Global};
use values::{Listed, Plain};

impl State {
    /// Adds the fronts of all tasks, where a session is open.
    pub fn push_all_fronts(&self, mails: &mut Vec<AgentMail>) -> Result<(), AllocError>
        ensures { OnOk result (mails.new.items ≡ mails.old.items ++ fronts (agent_of self.now)) }
    {
        if self.in_session {
            push_fronts(mails, self.parts().session, self.tasks())?;
        }
        Ok(())
    }

    pub fn report(&self, alloc: Global) -> Result<AgentMail, AllocError>
        ensures { IfOk result (λ mail. mail ≡ report_of (agent_of self.now)) }
    {
        let tasks = all_reported(alloc, self.tasks())?;
        Ok(AgentMail::Report {
            session: self.parts().session,
            run: self.parts().run,
            tasks: Listed::from_vec(tasks),
            total: self.parts().total.copy()?,
        })
    }
}
