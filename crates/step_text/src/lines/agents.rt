//! Steps that name an agent.

ghost use Rattle.std.specs.Prelude.{◌≡◌};
ghost use Rattle.serde_json.specs.View.{view};
ghost use Rattle.step_text.specs.Answers.{Gives};
ghost use Rattle.step_text.specs.Lines as lines;

use crate::lines::causes::{cause_in, cause_members};
use crate::lines::fault::{LineFault, NOT_A_STEP};
use crate::lines::members::{agent_in, has_members, keep_in};
use messages::Step;
use serde_json::Value;
use std::alloc::Global;

#[tactic(auto, unfolding(crate::specs::Lines::lose_of))]
pub fn lose(alloc: Global, value: &Value) -> Result<Step, LineFault>
    ensures { Gives (λ s. s) result (lines.lose_of (view value.now)) }
{
    if !has_members(value, 2) {
        return Err(NOT_A_STEP);
    }
    Ok(Step::LoseAgent(agent_in(alloc, value)?))
}

#[tactic(auto, unfolding(crate::specs::Lines::commit_of))]
pub fn commit(alloc: Global, value: &Value) -> Result<Step, LineFault>
    ensures { Gives (λ s. s) result (lines.commit_of (view value.now)) }
{
    if !has_members(value, 2) {
        return Err(NOT_A_STEP);
    }
    Ok(Step::Commit(agent_in(alloc, value)?))
}

#[tactic(auto, unfolding(crate::specs::Lines::stop_agent_of))]
pub fn stop_agent(alloc: Global, value: &Value) -> Result<Step, LineFault>
    ensures { Gives (λ s. s) result (lines.stop_agent_of (view value.now)) }
{
    if !has_members(value, 3) {
        return Err(NOT_A_STEP);
    }
    let agent = agent_in(alloc, value)?;
    match keep_in(value) {
        Some(keep) => Ok(Step::StopAgent { agent, keep }),
        None => Err(NOT_A_STEP),
    }
}

#[tactic(auto, unfolding(crate::specs::Lines::prepare_of))]
pub fn prepare(alloc: Global, value: &Value) -> Result<Step, LineFault>
    ensures { Gives (λ s. s) result (lines.prepare_of (view value.now)) }
{
    if !has_members(value, cause_members(value)) {
        return Err(NOT_A_STEP);
    }
    let agent = agent_in(alloc, value)?;
    let cause = cause_in(alloc, value)?;
    Ok(Step::Prepare { agent, cause })
}
