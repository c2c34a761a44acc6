//! What the master records of a framework.

use names_core::{AgentName, FrameworkId, RoleName, StreamId};
use quantity::Resources;
use values::Listed;

/// Resources of an agent that a framework refused, for some seconds (Mesos scheduler HTTP API,
/// ACCEPT and DECLINE: `refuse_seconds`).
#[derive(Drop)]
pub struct Filter {
    pub agent: AgentName,
    /// The moment at which it was made, in seconds.
    pub made: u32,
    pub seconds: u32,
    pub refused: Resources,
}

/// A framework that is known in this run.
#[derive(Drop)]
pub struct Framework {
    pub id: FrameworkId,
    pub role: RoleName,
    /// The open stream on which it receives events.
    pub stream: Option<StreamId>,
    /// Whether it asked for no more offers.
    pub suppressed: bool,
    /// The moment of its SUBSCRIBED, or of the last HEARTBEAT on its stream.
    pub last_beat: u32,
    /// The oldest first.
    pub filters: Listed<Filter>,
}
