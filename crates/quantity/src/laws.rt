//! Laws of rows: each function's contract is a law, which a proof has by calling the function.

ghost use Rattle.quantity.specs.Laws.{AmountsAddUp, CoversIsAtLeast, AmountsDetermineRows, SumsAddUp, RestsAreLess, RestsAreRows, RestsJoin};

/// The amounts of joined rows are the sums of both amounts.
pub fn amounts_add_up()
    ensures { AmountsAddUp }
{}

/// The test by rows is "at least as much of every name", whatever the rows' order.
pub fn covers_is_at_least()
    ensures { CoversIsAtLeast }
{}

/// Two lists of rows in order with the same amounts are one list.
pub fn amounts_determine_rows()
    ensures { AmountsDetermineRows }
{}

/// The rows of a sum have the sums of the amounts.
pub fn sums_add_up()
    ensures { SumsAddUp }
{}

/// What is left of a name is its amount less what is taken.
pub fn rests_are_less()
    ensures { RestsAreLess }
{}

/// What is left of rows in order are rows in order.
pub fn rests_are_rows()
    ensures { RestsAreRows }
{}

/// Taking one after the other leaves what taking both together leaves.
pub fn rests_join()
    ensures { RestsJoin }
{}
