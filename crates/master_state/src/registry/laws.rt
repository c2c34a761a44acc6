//! What holds of frameworks in order.

ghost use Rattle.master_state.specs.Frameworks.{PutsAreChanges};

/// Inserting a changed framework at its place changes it there.
pub fn puts_are_changes()
    ensures { PutsAreChanges }
{}
