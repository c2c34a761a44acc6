//! What is taken of each agent, current offers and booked tasks that haven't ended,
//! stays within what the agent owns.

ghost use Rattle.cluster_model.specs.Sides.{Side, new_side};
ghost use Rattle.cluster_model.specs.Fits.{FitsTotal, ReceivingAtKeepsFits, ReceivingKeepsFits, ReceivingKeepsSides, MovesKeepFits, MovesKeepSides, NothingFits, StepsKeepFits};
ghost use Rattle.std.specs.Prelude.{List, ℕ};

/// Every step of the master at an agent keeps what is taken within what the agent owns.
pub fn steps_keep_fits()
    ensures { StepsKeepFits }
{}

/// So do all moves of the master, one after another; and current offers keep ids, and booked tasks
/// launch keys, that are before the next one.
pub fn moves_keep_fits()
    ensures fits { MovesKeepFits }
    ensures sides { MovesKeepSides }
{}

/// So does a mail of an agent, where the tasks of a Report that haven't ended fit its total, and
/// their launch keys are before the next one.
pub fn receiving_keeps_fits()
    ensures side { ReceivingKeepsFits }
    ensures at_agent { ReceivingAtKeepsFits }
    ensures sides { ReceivingKeepsSides }
{}

/// Nothing is taken of an agent that has not yet opened a session.
pub fn new_sides_fit()
    ensures { (name : List ℕ) → FitsTotal (new_side name) }
{}

/// A mail that reports no tasks can be booked on any agent.
pub fn mails_without_tasks_fit()
    ensures { NothingFits }
{}
