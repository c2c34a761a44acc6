//! Hellos to agents.

ghost use Rattle.std.specs.Prelude.{◌≡◌, OnOk};
ghost use Rattle.master_state.specs.Greetings.{greeted};

use crate::state::State;
use messages::{MasterMail, ToAgent};
use names_core::AgentName;
use std::alloc::{AllocError, Global};
use values::Plain;

impl State {
    /// A Hello goes to an agent, where it is configured.
    pub fn greet(&mut self, alloc: Global, agent: &AgentName) -> Result<(), AllocError>
        ensures { OnOk result (self.new ≡ greeted agent.now self.old) }
    {
        let Some(dead) = self.sides.closed(agent) else {
            return Ok(());
        };
        let name = agent.copy()?;
        let run = self.run;
        self.send(ToAgent {
            agent: name,
            mail: MasterMail::Hello { run, dead },
        })
    }
}
