//! What the definitions of calls come to.

ghost use Rattle.std.specs.Prelude.{◌≡◌, ◌↔◌, List, ℕ, Ok, Err};
ghost use Rattle.serde_json.specs.Data.{Data};
ghost use Rattle.messages.specs.declared.call.Call.{Call};
ghost use Rattle.call_json.specs.declared.members.fault.Refusal.{Refusal};
ghost use Rattle.call_json.specs.Calls.{call_of, read_call};
ghost use Rattle.call_json.specs.IsCall.{IsCall, IsCallText};
ghost use Rattle.call_json.specs.Faults.{IsFirstFault, IsFirstFaultOfText};

/// A value is read as a call exactly where it is this call.
pub fn values_are_calls()
    ensures { (d : Data) (call : Call) → (call_of d ≡ Ok call) ↔ IsCall d call }
{}

/// A value is refused exactly by the first demand that it doesn't meet.
pub fn values_have_first_faults()
    ensures { (d : Data) (refusal : Refusal) → (call_of d ≡ Err refusal) ↔ IsFirstFault d refusal }
{}

/// So it is with texts.
pub fn texts_are_calls()
    ensures { (text : List ℕ) (call : Call) → (read_call text ≡ Ok call) ↔ IsCallText text call }
{}

/// A text is refused exactly by its first fault.
pub fn texts_have_first_faults()
    ensures { (text : List ℕ) (refusal : Refusal)
        → (read_call text ≡ Err refusal) ↔ IsFirstFaultOfText text refusal }
{}
