//! The calls about one launched task.

ghost use Rattle.serde_json.specs.View.{view};
ghost use Rattle.call_json.specs.Answers.{Gives};
ghost use Rattle.call_json.specs.Tasks.{kill_of, acknowledge_of};

use crate::members::{
    CallFault, Member, framework, member, optional_agent, required_agent, required_task,
    required_update,
};
use messages::Call;
use serde_json::Value;
use std::alloc::Global;

/// A KILL: its framework, the task, and the agent if one is named.
#[tactic(auto, unfolding(crate::specs::Tasks::kill_of))]
pub fn kill(alloc: Global, call: &Value) -> Result<Call, CallFault>
    ensures { Gives (λ c. c) result (kill_of (view call.now)) }
{
    let framework = framework(call)?;
    let body = call.get("kill");
    let task = required_task(alloc, member(body, "task_id"), Member::KilledTask)?;
    let agent = optional_agent(alloc, member(body, "agent_id"))?;
    Ok(Call::Kill {
        framework,
        task,
        agent,
    })
}

/// An ACKNOWLEDGE: its framework, the agent, the task, and the id of the update.
#[tactic(auto, unfolding(crate::specs::Tasks::acknowledge_of))]
pub fn acknowledge(alloc: Global, call: &Value) -> Result<Call, CallFault>
    ensures { Gives (λ c. c) result (acknowledge_of (view call.now)) }
{
    let framework = framework(call)?;
    let body = call.get("acknowledge");
    let agent = required_agent(alloc, member(body, "agent_id"), Member::AcknowledgedAgent)?;
    let task = required_task(alloc, member(body, "task_id"), Member::AcknowledgedTask)?;
    let update = required_update(alloc, member(body, "uuid"), Member::AcknowledgedUpdate)?;
    Ok(Call::Acknowledge {
        framework,
        agent,
        task,
        update,
    })
}
