//! The calls that name a framework and nothing else.

ghost use Rattle.serde_json.specs.View.{view};
ghost use Rattle.call_json.specs.Answers.{Gives};
ghost use Rattle.call_json.specs.Frameworks.{teardown_of, revive_of, suppress_of};

use crate::members::{CallFault, framework};
use messages::Call;
use serde_json::Value;

/// A TEARDOWN.
#[tactic(auto, unfolding(crate::specs::Frameworks::teardown_of))]
pub fn teardown(call: &Value) -> Result<Call, CallFault>
    ensures { Gives (λ c. c) result (teardown_of (view call.now)) }
{
    let framework = framework(call)?;
    Ok(Call::Teardown { framework })
}

/// A REVIVE.
#[tactic(auto, unfolding(crate::specs::Frameworks::revive_of))]
pub fn revive(call: &Value) -> Result<Call, CallFault>
    ensures { Gives (λ c. c) result (revive_of (view call.now)) }
{
    let framework = framework(call)?;
    Ok(Call::Revive { framework })
}

/// A SUPPRESS.
#[tactic(auto, unfolding(crate::specs::Frameworks::suppress_of))]
pub fn suppress(call: &Value) -> Result<Call, CallFault>
    ensures { Gives (λ c. c) result (suppress_of (view call.now)) }
{
    let framework = framework(call)?;
    Ok(Call::Suppress { framework })
}
