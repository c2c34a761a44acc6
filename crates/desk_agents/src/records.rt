//! Which record a cabinet kept.

ghost use Rattle.std.specs.Prelude.{IsTrue};
ghost use Rattle.desk_agents.specs.Opened.{IsFresh, IsOwn};

use agent_core::Record;
use values::Plain;

/// Whether a record is that of an agent that never opened a session.
fn is_fresh(durable: &Record) -> bool
    ensures { IsTrue result → IsFresh durable.now }
{
    let parts = durable.parts();
    parts.session == 0 && parts.run == 0 && parts.tasks.is_empty()
}

/// Whether what a cabinet keeps is an agent's own record.
/// An agent of which none was ever kept has the fresh one.
pub(crate) fn is_own(kept: &Option<Record>, own: &Record) -> bool
    ensures { IsTrue result → IsOwn kept.now own.now }
{
    match kept {
        Some(kept) => kept.is_same(own),
        None => is_fresh(own),
    }
}
