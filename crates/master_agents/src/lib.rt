//! The master's sides of all agents: each agent's session,
//! current offers and booked tasks (Mesos paper, sections 3.1 and 3.5).
#![tactic(auto)]

mod agent;
mod by_name;
mod config;
mod free;
mod in_order;
mod look;
mod own;
mod placed;
mod sides;
mod taking;

pub use agent::{AgentSide, Agents};
pub use config::{Config, ConfigFault, ConfiguredAgent, ConfiguredAgents};
pub use offer_tables::{BookFault, OffersAt, TaskUpdate, TasksAt};
pub use own::GoodOffers;
pub use sides::Sides;
