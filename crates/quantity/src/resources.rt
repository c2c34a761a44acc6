//! Resources: amounts by name.

ghost use Rattle.std.specs.Prelude.{◌≡◌, ◌↔◌, ◌≤◌, ◌+◌, ◌-◌, ◌^◌, List, ℕ, [], length, IsTrue, OnOk, OnErr, IfOk, IfErr};
ghost use Rattle.quantity.specs.Rows.{amount, covers, AreRows, added, sum_of, difference_of, rest_of};
ghost use Rattle.quantity.specs.Faults.{IsRefusal};
ghost use Rattle.quantity.specs.Laws.{AtLeast};

use crate::fault::QuantityFault;
use crate::rows::Row;
use crate::{name, rows};
use std::alloc::{AllocError, Global};
use std::marker::Model;
use values::Plain;

/// Amounts of named resources: at most eight names, each with an amount from 1 to 2^40.
#[derive(Debug)]
pub struct Resources {
    rows: Vec<Row>,
}

// By hand, so that who drops one goes through none of its parts.
impl Drop for Resources {
    fn drop(self) {
        let Resources { rows: _ } = self;
    }
}

impl Model for Resources {
    ghost use Rattle.std.specs.Prelude.{List};
    ghost use Rattle.quantity.specs.Rows.{Row, AreRows};

    ghost Value = { List Row };

    ghost view = { λ r. r.rows.items };

    ghost invariant = { λ r. AreRows r.rows.items };
}

impl Resources {
    /// Nothing of any resource. It takes no memory.
    pub fn new(alloc: Global) -> Resources
        ensures { result ≡ [] }
    {
        Resources {
            rows: Vec::new(alloc),
        }
    }

    pub fn is_empty(&self) -> bool
        ensures { IsTrue result ↔ (length self.now ≡ 0) }
    {
        self.rows.is_empty()
    }

    /// The rows, in byte order of their names.
    pub fn rows(&self) -> &[Row]
        ensures rows { result.now ≡ self.now }
        ensures ordered { AreRows self.now }
    {
        self.rows.as_slice()
    }

    /// The amount of a name, 0 where there is none. It takes no memory.
    pub fn get(&self, name: &str) -> u64
        ensures amount { result ≡ amount name.now self.now }
        ensures small { result ≤ 2 ^ 40 }
    {
        rows::amount_in(&self.rows, name)
    }

    /// Whether there is at least as much of each name as in `other`. It takes no memory.
    pub fn covers(&self, other: &Resources) -> bool
        ensures rows { result ≡ covers self.now other.now }
        ensures at_least { IsTrue result ↔ AtLeast self.now other.now }
    {
        rows::covers(&self.rows, &other.rows)
    }

    /// Adds an amount of one name; an amount of 0 adds nothing. Checked in this order: `Q5 BadName`
    /// for a text that names no resource, `Q2 TooLarge` for a sum over 2^40,
    /// `Q4 TooManyNames` for a ninth name. A refusal changes nothing.
    pub fn add(&mut self, alloc: Global, name: &str, amount: u64) -> Result<(), QuantityFault>
        ensures ok { OnOk result (added name.now amount self.old ≡ Ok self.new) }
        ensures refused { IfErr result (λ fault. IsRefusal fault (added name.now amount self.old)) }
        ensures err { OnErr result (self.new ≡ self.old) }
    {
        if !name::is_resource_name(name) {
            return Err(QuantityFault::BadName);
        }
        if amount == 0 {
            return Ok(());
        }
        rows::raise(alloc, &mut self.rows, name, amount)
    }

    /// The sum, name by name; `Q2 TooLarge` where some sum is over 2^40, else `Q4 TooManyNames`
    /// where both have more than eight names together.
    pub fn plus(&self, alloc: Global, other: &Resources) -> Result<Resources, QuantityFault>
        ensures ok { IfOk result (λ sum. sum_of self.now other.now ≡ Ok sum) }
        ensures refused { IfErr result (λ fault. IsRefusal fault (sum_of self.now other.now)) }
        ensures sum { IfOk result (λ sum. (name : List ℕ)
            → amount name sum ≡ amount name self.now + amount name other.now) }
    {
        let rows = rows::merged(alloc, &self.rows, &other.rows)?;
        rows::check_limits(&rows)?;
        Ok(Resources { rows })
    }

    /// The difference, name by name; `Q3 NotCovered` where `other` has more of some name.
    pub fn minus(&self, alloc: Global, other: &Resources) -> Result<Resources, QuantityFault>
        ensures ok { IfOk result (λ rest. difference_of self.now other.now ≡ Ok rest) }
        ensures refused { IfErr result
            (λ fault. IsRefusal fault (difference_of self.now other.now)) }
        ensures difference { IfOk result (λ rest. (name : List ℕ)
            → amount name rest + amount name other.now ≡ amount name self.now) }
    {
        if !self.covers(other) {
            return Err(QuantityFault::NotCovered);
        }
        let mut rest = self.copy()?;
        rest.reduce_by(other);
        Ok(rest)
    }

    /// Subtracts what `other` has of each name,
    /// or all there is where `other` has more. It takes no memory.
    pub fn reduce_by(&mut self, other: &Resources)
        ensures rest { self.new ≡ rest_of self.old other.now }
        ensures less { (name : List ℕ) → amount name self.new
            ≡ amount name self.old - amount name other.now }
    {
        rows::reduce(&mut self.rows, &other.rows);
    }
}

impl Clone for Resources {
    ghost is_clone = { λ one other. other ≡ one };

    fn clone(&self) -> Result<Resources, AllocError> {
        Ok(Resources {
            rows: self.rows.clone()?,
        })
    }
}

impl PartialEq for Resources {
    ghost use Rattle.values.specs.Deciding.{per_from_decides};
    ghost use Rattle.std.proofs.Common.{rules};
    ghost use Rattle.std.specs.Cmp.Lexicographic.{pointwise, pointwise_decides};

    ghost eq = { pointwise ⟦<Row as PartialEq>⟧.eq };

    ghost laws = { per_from_decides (pointwise_decides (Prim.search rules)) };

    fn eq(&self, other: &Resources) -> bool {
        self.rows == other.rows
    }
}

impl Plain for Resources {
    ghost use Rattle.std.proofs.Common.{rules};
    ghost use Rattle.std.specs.Cmp.Lexicographic.{pointwise_decides};

    ghost cloned = { λ _ _ same. same };

    ghost decided = { pointwise_decides (Prim.search rules) };
}
