//! What follows from the book's definitions.

ghost use Rattle.offer_tables.specs.Laws.{EndedTakesNothing};

/// A task that has ended takes nothing: what is free of each agent stays when one is booked.
pub fn ended_tasks_take_nothing()
    ensures { EndedTakesNothing }
{}
