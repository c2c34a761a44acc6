//! Dominant shares of a total, and how two compare (DRF paper, sections 4 and 4.3).

ghost use Rattle.std.specs.Prelude.{◌≡◌, ◌*◌, ◌≤◌, nat_eq};
ghost use Rattle.drf_shares.specs.Dominant.{IsDominant, is_at_most, nothing};
ghost use Rattle.drf_shares.specs.Sums.{greatest_sum};

use crate::sum::Sum;
use std::marker::Model;

/// How much of a total is held. Both are at most 2^48.
#[derive(Clone, Copy, Drop)]
pub struct Fraction {
    amount: u64,
    total: u64,
}

impl Model for Fraction {
    ghost use Rattle.std.specs.Prelude.{◌≤◌};
    ghost use Rattle.drf_shares.specs.Parts.{Part};
    ghost use Rattle.drf_shares.specs.Sums.{greatest_sum};

    ghost Value = { Part };

    ghost view = { λ f. record { amount = f.amount; total = f.total } };

    ghost invariant = { λ f. (f.amount ≤ greatest_sum) × (f.total ≤ greatest_sum) };

    ghost inverse = { λ p. record { amount = p.amount; total = p.total } };
}

/// An amount by the total of another name, and a weight.
fn scaled(amount: u64, total: u64, weight: u16) -> u128
    requires amount { amount ≤ greatest_sum }
    requires total { total ≤ greatest_sum }
    ensures { result ≡ amount * (total * weight) }
{
    u128::from(amount) * u128::from(total * u64::from(weight))
}

impl Fraction {
    /// The dominant share of one who holds nothing.
    pub fn nothing() -> Fraction
        ensures { result ≡ nothing }
    {
        Fraction {
            amount: 0,
            total: 1,
        }
    }

    /// Whether nothing is held.
    pub fn is_nothing(self) -> bool
        ensures { result ≡ nat_eq self.amount 0 }
    {
        self.amount == 0
    }

    /// The dominant share: of the names of the totals the greatest part that is held of one.
    /// It takes no memory.
    pub fn dominant(totals: &Sum, held: &Sum) -> Fraction
        ensures { IsDominant totals.now held.now result }
    {
        let mut most: u64 = 0;
        let mut total: u64 = 1;
        for row in totals.rows() {
            let amount = held.amount(row.name.as_str());
            let is_more = u128::from(most) * u128::from(row.amount)
                <= u128::from(amount) * u128::from(total);
            if is_more {
                most = amount;
                total = row.amount;
            }
        }
        Fraction {
            amount: most,
            total,
        }
    }

    /// Whether it is at most another, each by its weight: a weight says how much of all is due,
    /// beside the other's.
    pub fn is_at_most(self, weight: u16, other: Fraction, other_weight: u16) -> bool
        ensures { result ≡ is_at_most self weight other other_weight }
    {
        scaled(self.amount, other.total, other_weight) <= scaled(other.amount, self.total, weight)
    }
}
