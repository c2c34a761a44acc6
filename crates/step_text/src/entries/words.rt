//! The words for calls and verdicts.

ghost use Rattle.std.specs.Prelude.{◌≡◌, option_map};
ghost use Rattle.step_text.specs.Words.{call_word, step_word, verdict_text};

use messages::{Call, Step, Verdict};

/// The type of a call (Mesos scheduler HTTP API, Calls).
#[tactic(auto, unfolding(crate::specs::Words::call_word))]
fn call_word(call: &Call) -> &'static str
    ensures { result.now ≡ call_word call.now }
{
    match call {
        Call::Subscribe { .. } => "SUBSCRIBE",
        Call::Teardown { .. } => "TEARDOWN",
        Call::Accept { .. } => "ACCEPT",
        Call::Decline { .. } => "DECLINE",
        Call::Revive { .. } => "REVIVE",
        Call::Suppress { .. } => "SUPPRESS",
        Call::Kill { .. } => "KILL",
        Call::Acknowledge { .. } => "ACKNOWLEDGE",
        Call::Reconcile { .. } => "RECONCILE",
    }
}

/// The type of the call that a step sends.
#[tactic(auto, unfolding(crate::specs::Words::step_word))]
pub(crate) fn step_word(step: &Step) -> &'static str
    ensures { result.now ≡ step_word step.now }
{
    match step {
        Step::Send { call, .. } => call_word(call.get()),
        _ => "",
    }
}

/// The text of a verdict; `None` where a part ran out of memory.
pub(crate) fn verdict_text(verdict: Verdict) -> Option<&'static str>
    ensures { option_map (λ text. text.now) result ≡ verdict_text verdict }
{
    match verdict {
        Verdict::Ok => Some("ok"),
        Verdict::MasterRefused(refusal) => Some(refusal.as_text()),
        Verdict::AgentRefused(refusal) => Some(refusal.as_text()),
        Verdict::OutOfMemory => None,
    }
}
