//! The configuration: which agents there are, and the weights of roles.

ghost use Rattle.std.specs.Prelude.{◌≡◌, ◌≤◌, ◌<◌, [], true, false, length, nat_le, OnOk, OnErr, IfErr};
ghost use Rattle.master_agents.specs.Configs.{IsConfigRefusal, are_ordered, has_name, most_agents, names_of, place_for, with_agent};
ghost use Rattle.master_agents.specs.declared.config.ConfigFault.TheVariants.{OutOfMemory};

use names_core::{AgentName, Weights};
use quantity::Resources;
use std::alloc::{AllocError, AllocFailed, Global};
use std::marker::Model;
use thiserror::Error;

/// As many agents as a configuration has at most.
const MOST_AGENTS: usize = 256;

/// A configured agent, and what it owns.
#[derive(Drop)]
pub struct ConfiguredAgent {
    pub name: AgentName,
    pub total: Resources,
}

/// Why an agent isn't configured.
#[derive(Clone, Copy, Debug, Drop, PartialEq, Eq, Error)]
pub enum ConfigFault {
    /// An agent of this name is configured already.
    #[error("an agent is named twice")]
    NamedTwice,
    /// There are 256 agents already.
    #[error("more than 256 agents")]
    TooMany,
    /// Memory was refused.
    #[error("out of memory")]
    OutOfMemory,
}

impl From<AllocError> for ConfigFault {
    ghost from_gives = { λ _ fault. fault ≡ OutOfMemory };

    fn from(_: AllocError) -> ConfigFault {
        ConfigFault::OutOfMemory
    }
}

impl<T: Drop> From<AllocFailed<T>> for ConfigFault {
    ghost from_gives = { λ _ fault. fault ≡ OutOfMemory };

    fn from(_: AllocFailed<T>) -> ConfigFault {
        ConfigFault::OutOfMemory
    }
}

/// At most 256 agents, in byte order of their names, none named twice.
pub struct ConfiguredAgents {
    agents: Vec<ConfiguredAgent>,
}

// By hand, so that who drops one goes through none of its parts.
impl Drop for ConfiguredAgents {
    fn drop(self) {
        let ConfiguredAgents { agents: _ } = self;
    }
}

impl Model for ConfiguredAgents {
    ghost use Rattle.std.specs.Prelude.{◌≡◌, ◌≤◌, List, true, length};
    ghost use Rattle.master_agents.specs.declared.config.ConfiguredAgent.{ConfiguredAgent};
    ghost use Rattle.master_agents.specs.Configs.{are_ordered, most_agents, names_of};

    ghost Value = { List ConfiguredAgent };

    ghost view = { λ config. config.agents.items };

    ghost invariant = { λ config. (are_ordered (names_of config.agents.items) ≡ true)
        × (length config.agents.items ≤ most_agents) };
}

/// The configuration of a cluster: its agents, with what each owns, and the weights of roles.
#[derive(Drop)]
pub struct Config {
    pub agents: ConfiguredAgents,
    pub weights: Weights,
}

fn place_for(agents: &[ConfiguredAgent], name: &AgentName) -> usize
    ensures place { result ≡ place_for name.now agents.now }
    ensures within { result ≤ length agents.now }
{
    let mut place = 0;
    for agent in agents {
        if !agent.name.is_before(name) {
            return place;
        }
        place += 1;
    }
    place
}

fn has_name(agents: &[ConfiguredAgent], name: &AgentName) -> bool
    ensures { result ≡ has_name name.now agents.now }
{
    agents.iter().any(|agent| agent.name.is(name))
}

fn add_in(agents: &mut Vec<ConfiguredAgent>, agent: ConfiguredAgent) -> Result<(), AllocError>
    ensures ok { OnOk result (agents.new.items ≡ with_agent agent agents.old.items) }
    ensures err { OnErr result (agents.new.items ≡ agents.old.items) }
{
    let place = place_for(agents, &agent.name);
    agents.insert(place, agent)?;
    Ok(())
}

impl ConfiguredAgents {
    /// Without agents.
    pub fn new(alloc: Global) -> ConfiguredAgents
        ensures { result ≡ [] }
    {
        ConfiguredAgents {
            agents: Vec::new(alloc),
        }
    }

    /// The agents, in byte order of their names.
    pub fn agents(&self) -> &[ConfiguredAgent]
        ensures agents { result.now ≡ self.now }
        ensures ordered { are_ordered (names_of self.now) ≡ true }
        ensures few { length self.now ≤ most_agents }
    {
        self.agents.as_slice()
    }

    /// Configures an agent of this name, which owns `total`.
    pub fn add(&mut self, name: AgentName, total: Resources) -> Result<(), ConfigFault>
        ensures ok { OnOk result (self.new ≡ with_agent (record { name = name; total = total })
            self.old) }
        ensures once { OnOk result (has_name name self.old ≡ false) }
        ensures few { OnOk result (length self.old < most_agents) }
        ensures refused { IfErr result (IsConfigRefusal name self.old) }
        ensures err { OnErr result (self.new ≡ self.old) }
    {
        if has_name(&self.agents, &name) {
            return Err(ConfigFault::NamedTwice);
        }
        if self.agents.len() >= MOST_AGENTS {
            return Err(ConfigFault::TooMany);
        }
        add_in(&mut self.agents, ConfiguredAgent { name, total })?;
        Ok(())
    }
}
