//! What holds of updates.

ghost use Rattle.master_core.specs.Ending.{FreesAsEnding};

/// An update that says that its task has ended frees just what ending the task frees.
pub fn an_end_that_is_received_frees()
    ensures { FreesAsEnding }
{}
