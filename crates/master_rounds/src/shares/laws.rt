//! What holds of the shares of a round.

ghost use Rattle.master_rounds.specs.Laws.{GoesToPicked, PicksAlike};

/// By the shares of a round the same framework stands least as
/// by the amounts in the master's books.
pub fn picks_alike()
    ensures { PicksAlike }
{}

/// The framework that the model picks is served no later than each other to which what is free may
/// be offered; it picks none only where it may be offered to none.
pub fn goes_to_picked()
    ensures { GoesToPicked }
{}
