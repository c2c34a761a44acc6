//! How steps end, and what they send.

ghost use Rattle.std.proofs.Common.{rules};

use crate::{AgentRefusal, MasterRefusal, ToAgent, ToMaster};
use values::{Plain, Shared};

/// How a step ended.
#[derive(Clone, Copy, Drop, PartialEq, Eq)]
pub enum Verdict {
    Ok,
    MasterRefused(MasterRefusal),
    AgentRefused(AgentRefusal),
    /// The part that the step changes ran out of memory, and is down.
    OutOfMemory,
}

impl Plain for Verdict {
    ghost cloned = { Prim.search rules };

    ghost decided = { Prim.search rules };
}

/// A call or a mail that was sent. A call is its step's; a mail is one value,
/// which who delivers it shares.
#[derive(Clone, Drop, PartialEq)]
pub enum Sent {
    Call,
    ToAgent(Shared<ToAgent>),
    ToMaster(Shared<ToMaster>),
}

impl Plain for Sent {
    ghost use Rattle.messages.specs.declared.steps.verdict.Sent.TheVariants.{Call, ToAgent, ToMaster};
    ghost use Rattle.messages.specs.contracts.mail.ToAgentPlain.TheImpl.Laws.{decided-law as agent_decided};
    ghost use Rattle.messages.specs.contracts.mail.ToMasterPlain.TheImpl.Laws.{decided-law as master_decided};

    ghost cloned = { Prim.search rules };

    ghost decided = { elim [
      | Call ↦ elim [ Call ↦ Prim.search rules | _ ↦ Prim.search rules ]
      | ToAgent m ↦ elim [
        | ToAgent n ↦ (let d = agent_decided m n in (
          (λ h. let e = d.0 h in
              Prim.search rules),
          (λ e. d.1 (Prim.search rules)),
        ))
        | _ ↦ Prim.search rules
      ]
      | ToMaster m ↦ elim [
        | ToMaster n ↦ (let d = master_decided m n in (
          (λ h. let e = d.0 h in
              Prim.search rules),
          (λ e. d.1 (Prim.search rules)),
        ))
        | _ ↦ Prim.search rules
      ]
    ] };
}
