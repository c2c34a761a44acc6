//! What an agent prepares at a command.

ghost use Rattle.std.specs.Prelude.{◌≡◌, ◌<◌, true, Ok, IfOk, IfSome, is_some, suc};
ghost use Rattle.cluster_model.specs.Agents.{has_room, receives_command, applies, tasks_after};
ghost use Rattle.messages.specs.declared.mail.Command.TheVariants.{Launch};
ghost use Rattle.messages.specs.declared.mail.MasterMail.TheVariants.{Issued};
ghost use Rattle.agent_core.specs.Drafts.{agent_of, applied_with, receives_in_order, is_with_run, launches_anew, next_draft, Prepares, reported_again};
ghost use Rattle.agent_core.specs.Records.{HasRoom, is_record, with_other_tasks};

use crate::fault::AgentFault;
use crate::state::State;
use crate::tasks::{
    acknowledged_all, count_before, front_sent_after, push_fronts_at, stated_all, without_framework,
};
use messages::{AgentMail, AgentRefusal, Command, Job, RecordedTask};
use names_core::{LaunchKey, OfferId, TaskState};
use quantity::Resources;
use std::alloc::{AllocError, Global};
use stream_core::{LinkIn, Updates};
use values::{Listed, Shared, copies_of};

/// What an agent would be, and the mails that it would send.
#[derive(Drop)]
pub struct Next {
    pub after: State,
    pub mails: Vec<AgentMail>,
}

impl State {
    /// The tasks with one more, in its place by launch key.
    fn launched(
        &self,
        alloc: Global,
        job: Job,
        offers: Listed<OfferId>,
    ) -> Result<Vec<Shared<RecordedTask>>, AllocError>
        requires { launches_anew (agent_of self.now) (Launch job offers) ≡ true }
        ensures { IfOk result (λ v. v.items
            ≡ tasks_after (Launch job offers) self.now.durable.tasks) }
    {
        let _recorded = self.parts();
        let place = count_before(self.tasks(), job.key);
        let mut all = copies_of(alloc, self.tasks())?;
        let task = RecordedTask {
            job,
            offers,
            updates: Updates::new(alloc),
        };
        all.insert(place, Shared::new(alloc, task)?)?;
        Ok(all)
    }

    /// The next command is applied, and leaves these tasks; the front of one task is sent with it.
    fn applied_with(
        &self,
        alloc: Global,
        link: LinkIn,
        tasks: Vec<Shared<RecordedTask>>,
        room: Resources,
        told: Option<LaunchKey>,
    ) -> Result<Next, AllocError>
        requires next { link ≡ suc self.now.link }
        requires recorded { is_record (with_other_tasks self.now.durable tasks.items) ≡ true }
        requires room { HasRoom room (with_other_tasks self.now.durable tasks.items) }
        ensures { IfOk result (λ n. next_draft n
            ≡ applied_with (agent_of self.now) tasks.items told) }
    {
        let after = self.with_tasks(tasks, link, room)?;
        let mut mails = Vec::new(alloc);
        mails.push(AgentMail::Applied {
            session: self.parts().session,
            count: link.count(),
        })?;
        if let Some(key) = told {
            push_fronts_at(&mut mails, self.parts().session, key, after.tasks())?;
        }
        Ok(Next { after, mails })
    }

    /// The next command is applied; the link has taken it.
    fn apply(
        &self,
        alloc: Global,
        link: LinkIn,
        command: Command,
        room: Resources,
    ) -> Result<Next, AllocError>
        requires next { link ≡ suc self.now.link }
        requires run { 0 < self.now.durable.run }
        requires has_room { has_room (agent_of self.now) command ≡ true }
        requires room { HasRoom room (with_other_tasks self.now.durable
            (tasks_after command self.now.durable.tasks)) }
        requires order { launches_anew (agent_of self.now) command ≡ true }
        ensures { IfOk result (λ n. next_draft n ≡ applies (agent_of self.now) command) }
    {
        self.applied_is_record(&command);
        match command {
            Command::Launch(job, offers) => {
                let tasks = self.launched(alloc, job, offers)?;
                self.applied_with(alloc, link, tasks, room, None)
            }
            Command::Kill(key) => {
                let tasks = stated_all(alloc, key, TaskState::Killed, self.tasks())?;
                self.applied_with(alloc, link, tasks, room, Some(key))
            }
            Command::Ack(key, k) => {
                let tasks = acknowledged_all(alloc, key, k, self.tasks())?;
                let sent = front_sent_after(key, k, self.tasks());
                self.applied_with(alloc, link, tasks, room, sent)
            }
            Command::EndFramework(framework) => {
                let tasks = without_framework(alloc, framework, self.tasks())?;
                self.applied_with(alloc, link, tasks, room, None)
            }
        }
    }

    /// A room that is left once a command is applied; None where there is none for it.
    fn room_after(&self, alloc: Global, command: &Command) -> Result<Option<Resources>, AllocError>
        ensures some { IfOk result
            (λ room. is_some room ≡ has_room (agent_of self.now) command.now) }
        ensures left { IfOk result (λ room. IfSome room (λ rest. HasRoom rest
            (with_other_tasks self.now.durable
            (tasks_after command.now self.now.durable.tasks)))) }
    {
        quantity::amounts_add_up();
        match command {
            Command::Launch(job, _) => self.durable.room_beside(alloc, &job.resources),
            Command::Kill(_) | Command::Ack(..) | Command::EndFramework(_) => {
                let room = self.durable.room(alloc)?;
                Ok(Some(room))
            }
        }
    }

    /// Nothing changes, and the count of applied commands is sent again.
    fn report_again(&self, alloc: Global) -> Result<Next, AllocError>
        ensures { IfOk result (λ n. next_draft n ≡ reported_again (agent_of self.now)) }
    {
        let after = self.copy()?;
        let mut mails = Vec::new(alloc);
        mails.push(AgentMail::Applied {
            session: self.parts().session,
            count: self.link.count(),
        })?;
        Ok(Next { after, mails })
    }

    /// At the command with this number of a session.
    #[tactic(auto, using(crate::proofs::Taking::room_takes_memory))]
    pub fn receive_command(
        &self,
        alloc: Global,
        session: u32,
        number: u32,
        command: Command,
    ) -> Result<Next, AgentFault>
        requires run { is_with_run (agent_of self.now) ≡ true }
        requires order { receives_in_order (agent_of self.now) (Issued session number command)
            ≡ true }
        ensures { Prepares result (receives_command (agent_of self.now) session number command) }
    {
        if !(self.in_session && session == self.parts().session) {
            return Err(AgentFault::Refused(AgentRefusal::OldSession));
        }
        if number <= self.link.count() {
            return Ok(self.report_again(alloc)?);
        }
        let mut link = self.link;
        if link.take(number).is_err() {
            return Err(AgentFault::Refused(AgentRefusal::NotNext));
        }
        let Some(room) = self.room_after(alloc, &command)? else {
            return Err(AgentFault::Refused(AgentRefusal::NoRoom));
        };
        Ok(self.apply(alloc, link, command, room)?)
    }
}
