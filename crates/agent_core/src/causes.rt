//! What an agent prepares at a cause.

ghost use Rattle.std.specs.Prelude.{◌≡◌, ◌<◌, true, false, suc, nat_le, Ok, IfErr, IfOk};
ghost use Rattle.messages.specs.declared.refusal.AgentRefusal.TheVariants.{SessionsSpent};
ghost use Rattle.cluster_model.specs.Ids.{last_number};
ghost use Rattle.cluster_model.specs.Agents.{reports, opens_again, opens_next, receives_hello, receives_mail, executes, next_of};
ghost use Rattle.agent_core.specs.Drafts.{agent_of, next_draft, after_state, receives_in_order, is_in_order, is_next_command, is_with_run, launches_anew, names_run, Prepares};

use crate::commands::Next;
use crate::fault::AgentFault;
use crate::state::State;
use crate::tasks::{has_ended_task, has_task, lacks_place, push_fronts_at, stated_all};
use messages::{AgentRefusal, Cause, Command, MasterMail};
use names_core::{LaunchKey, Run, TaskState};
use quantity::Resources;
use std::alloc::{AllocError, Global};

/// A Hello names a run above 0: the call adds this to a proof.
pub fn hello_names_run(cause: &Cause)
    ensures { names_run cause.now ≡ true }
{
    if let Cause::Mail(to) = cause {
        if let MasterMail::Hello { run, .. } = &to.mail {
            let _number = run.number();
        }
    }
}

/// The number of the session after the last one.
fn next_session(last: u32) -> Result<u32, AgentRefusal>
    ensures next { IfOk result (λ next. (next ≡ suc last) × (nat_le last_number last ≡ false)) }
    ensures spent { IfErr result (λ e. (e ≡ SessionsSpent) × (nat_le last_number last ≡ true)) }
{
    if last == u32::MAX {
        return Err(AgentRefusal::SessionsSpent);
    }
    Ok(last + 1)
}

impl State {
    /// The state as it is, with its Report and its fronts.
    fn reporting(self, alloc: Global) -> Result<Next, AllocError>
        ensures { IfOk result (λ n. next_draft n ≡ reports (agent_of self)) }
    {
        let mut mails = Vec::new(alloc);
        mails.push(self.report(alloc)?)?;
        self.push_all_fronts(&mut mails)?;
        Ok(Next { after: self, mails })
    }

    /// The session after the last one is opened with the master of a run.
    fn open_next(&self, alloc: Global, last: u32, run: u32) -> Result<Next, AgentFault>
        requires { 0 < run }
        ensures { Prepares result (opens_next (agent_of self.now) last run) }
    {
        let session = next_session(last)?;
        let after = self.reopened(session, run)?;
        Ok(after.reporting(alloc)?)
    }

    fn receive_hello(&self, alloc: Global, run: Run, dead: u32) -> Result<Next, AgentFault>
        ensures { Prepares result (receives_hello (agent_of self.now) run dead) }
    {
        let run = u32::from(run.number());
        let session = self.parts().session;
        if run < self.parts().run {
            return Err(AgentFault::Refused(AgentRefusal::OldSession));
        }
        if self.parts().run < run || session <= dead || !self.in_session {
            return self.open_next(alloc, session.max(dead), run);
        }
        let after = self.copy()?;
        Ok(after.reporting(alloc)?)
    }

    fn receive_mail(&self, alloc: Global, mail: MasterMail) -> Result<Next, AgentFault>
        requires run { is_with_run (agent_of self.now) ≡ true }
        requires order { receives_in_order (agent_of self.now) mail ≡ true }
        ensures { Prepares result (receives_mail (agent_of self.now) mail) }
    {
        match mail {
            MasterMail::Hello { run, dead } => self.receive_hello(alloc, run, dead),
            MasterMail::Issued {
                session,
                number,
                command,
            } => self.receive_command(alloc, session, number, command),
        }
    }

    /// The session after the last one is opened with the master of the record's run.
    fn open_again(&self, alloc: Global) -> Result<Next, AgentFault>
        requires { 0 < self.now.durable.run }
        ensures { Prepares result (opens_again (agent_of self.now)) }
    {
        self.open_next(alloc, self.parts().session, self.parts().run)
    }

    fn start(&self, alloc: Global, total: Option<Resources>) -> Result<Next, AgentFault>
        ensures { Prepares result (next_of (agent_of self.now) (Cause.Start total)) }
    {
        if self.parts().run == 0 {
            return Err(AgentFault::Refused(AgentRefusal::OldSession));
        }
        let Some(total) = total else {
            return self.open_again(alloc);
        };
        if !total.covers(&self.parts().total) {
            return Err(AgentFault::Refused(AgentRefusal::TotalLess));
        }
        // A10 is found before memory is asked for.
        next_session(self.parts().session)?;
        let owner = self.owning(total)?;
        owner.open_again(alloc)
    }

    fn send_again(&self, alloc: Global) -> Result<Next, AllocError>
        ensures { IfOk result (λ n. next_of (agent_of self.now) Cause.Again ≡ Ok (next_draft n)) }
    {
        let mut mails = Vec::new(alloc);
        self.push_all_fronts(&mut mails)?;
        let after = self.copy()?;
        Ok(Next { after, mails })
    }

    /// A state that has a place is added to the task of a key.
    fn with_state(
        &self,
        alloc: Global,
        key: LaunchKey,
        state: TaskState,
    ) -> Result<Next, AllocError>
        ensures { IfOk result (λ n. next_draft n ≡ after_state (agent_of self.now) key state) }
    {
        self.stated_is_record(key, state);
        let tasks = stated_all(alloc, key, state, self.tasks())?;
        let room = self.durable.room(alloc)?;
        let after = self.with_tasks(tasks, self.link, room)?;
        let mut mails = Vec::new(alloc);
        if self.in_session {
            push_fronts_at(&mut mails, self.parts().session, key, after.tasks())?;
        }
        Ok(Next { after, mails })
    }

    fn execute(&self, alloc: Global, key: LaunchKey, state: TaskState) -> Result<Next, AgentFault>
        ensures { Prepares result (executes (agent_of self.now) key state) }
    {
        if !has_task(key, self.tasks()) {
            return Err(AgentFault::Refused(AgentRefusal::NoSuchTask));
        }
        if has_ended_task(key, self.tasks()) {
            return Err(AgentFault::Refused(AgentRefusal::Ended));
        }
        if lacks_place(key, state, self.tasks()) {
            return Err(AgentFault::Refused(AgentRefusal::UpdatesFull));
        }
        Ok(self.with_state(alloc, key, state)?)
    }

    fn launches_anew(&self, command: &Command) -> bool
        ensures { result ≡ launches_anew (agent_of self.now) command.now }
    {
        match command {
            Command::Launch(job, _) => !has_task(job.key, self.tasks()),
            _ => true,
        }
    }

    fn is_next_command(&self, session: u32, number: u32) -> bool
        ensures { result ≡ is_next_command (agent_of self.now) session number }
    {
        self.in_session
            && session == self.parts().session
            && number > 0
            && number - 1 == self.link.count()
    }

    /// Whether a mail for this agent isn't the next command of the open session, or launches no
    /// task under a key that is in the record.
    pub fn receives_in_order(&self, mail: &MasterMail) -> bool
        ensures { result ≡ receives_in_order (agent_of self.now) mail.now }
    {
        match mail {
            MasterMail::Hello { .. } => true,
            MasterMail::Issued {
                session,
                number,
                command,
            } => !self.is_next_command(*session, *number) || self.launches_anew(command),
        }
    }

    pub fn next(&self, alloc: Global, cause: Cause) -> Result<Next, AgentFault>
        requires run { is_with_run (agent_of self.now) ≡ true }
        requires order { is_in_order (agent_of self.now) cause ≡ true }
        ensures { Prepares result (next_of (agent_of self.now) cause) }
    {
        match cause {
            Cause::Start(total) => self.start(alloc, total),
            Cause::Again => Ok(self.send_again(alloc)?),
            Cause::Executor(key, state) => self.execute(alloc, key, state.task_state()),
            Cause::Mail(to) => {
                if !to.agent.is(&self.parts().name) {
                    return Err(AgentFault::Refused(AgentRefusal::NotForMe));
                }
                self.receive_mail(alloc, to.mail)
            }
        }
    }
}
