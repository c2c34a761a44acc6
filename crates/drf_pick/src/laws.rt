//! What holds of shares: each function's contract is a law, and its call adds the law to a proof.

ghost use Rattle.drf_pick.specs.Laws.{TestIsRelation, AmountsDecide, StandingIsOrder, PickIsOne, PicksLeast};

/// The test over rows is the order of shares over all names: at each name that agents own,
/// the first's share is at most the second's share of some name.
pub fn test_is_relation()
    ensures { TestIsRelation }
{}

/// How two compare depends on the amounts of each name and on the weights alone.
pub fn amounts_decide()
    ensures { AmountsDecide }
{}

/// The order compares any two of some weight and is transitive.
pub fn standing_is_order()
    ensures { StandingIsOrder }
{}

/// What is picked is one of the frameworks, and none comes before it.
pub fn picks_least()
    ensures { PicksLeast }
{}

/// Of the same clients, by the same shares, `pick` and any other function that is known to pick
/// the one that stands least pick the same.
pub fn pick_is_one()
    ensures { PickIsOne }
{}
