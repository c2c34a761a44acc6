//! Commands to agents, and offers that are withdrawn.

ghost use Rattle.std.specs.Prelude.{◌≡◌, OnOk};
ghost use Rattle.cluster_model.specs.Masters.{is_of};
ghost use Rattle.cluster_model.specs.Sides.{is_named};
ghost use Rattle.master_state.specs.States.{ordered, without_offers};

use crate::state::State;
use messages::{Command, MasterMail, ToAgent};
use names_core::{AgentName, FrameworkId, OfferId};
use std::alloc::{AllocError, Global};
use values::Plain;

impl State {
    /// A command goes to an agent, where it has an open session. `copy` is the same command again.
    pub fn order(
        &mut self,
        alloc: Global,
        agent: &AgentName,
        command: Command,
        copy: Command,
    ) -> Result<(), AllocError>
        requires { copy ≡ command }
        ensures { OnOk result (self.new ≡ ordered agent.now command self.old) }
    {
        let name = agent.copy()?;
        match self.sides.issue_to(agent, command) {
            Err(_) => Err(AllocError),
            Ok(None) => Ok(()),
            Ok(Some((session, number))) => self.send(ToAgent {
                agent: name,
                mail: MasterMail::Issued {
                    session,
                    number,
                    command: copy,
                },
            }),
        }
    }

    /// All offers to a framework are withdrawn. It takes no memory.
    pub fn withdraw_of(&mut self, framework: FrameworkId)
        ensures { self.new ≡ without_offers (is_of framework) self.old }
    {
        self.sides.withdraw_of(framework);
    }

    /// The offers to a framework that have one of these ids are withdrawn. It takes no memory.
    pub fn withdraw_named(&mut self, framework: FrameworkId, ids: &[OfferId])
        ensures { self.new ≡ without_offers (is_named framework ids.now) self.old }
    {
        self.sides.withdraw_named(framework, ids);
    }
}
