//! Sums of amounts by name.

ghost use Rattle.std.specs.Prelude.{◌≡◌, ◌+◌, ◌≤◌, ◌↔◌, [], true, false, Err, OnOk, IfOk};
ghost use Rattle.std.specs.List.{AllByRecursion};
ghost use Rattle.quantity.specs.Rows.{AreRows, amount, covers, rest_of};
ghost use Rattle.drf_shares.specs.Sums.{AddUp, CanAdd, first_amount, fits_all, greatest_sum, has_names_of, has_some, is_reached, plus_rows, raised, IsSum};

use crate::fault::SharesFault;
use quantity::{ResourceName, Resources, Row};
use std::alloc::{AllocError, Global};
use std::cmp::Ordering;
use std::marker::Model;
use values::{Plain, push_copies};

/// What 256 agents own of a name at most.
const GREATEST_SUM: u64 = 281_474_976_710_656;

/// Amounts of any number of names, in byte order of these. No amount is above 2^48, which is what
/// 256 agents own of a name, of at most 2^40 each.
pub struct Sum {
    rows: Vec<Row>,
}

// By hand, so that who drops one goes through none of its parts.
impl Drop for Sum {
    fn drop(self) {
        let Sum { rows: _ } = self;
    }
}

impl Model for Sum {
    ghost use Rattle.std.specs.Prelude.{List};
    ghost use Rattle.quantity.specs.declared.rows.Row.{Row};
    ghost use Rattle.drf_shares.specs.Sums.{IsSum};

    ghost Value = { List Row };

    ghost view = { λ sum. sum.rows.items };

    ghost invariant = { λ sum. IsSum sum.rows.items };
}

fn raise(rows: &mut Vec<Row>, more: &Row) -> Result<(), AllocError>
    requires { amount more.now.name rows.old.items + more.now.amount ≤ greatest_sum }
    ensures { OnOk result (rows.new.items ≡ raised more.now.name more.now.amount
        rows.old.items) }
{
    for i in 0..rows.len() {
        match more.name.as_str().cmp(rows[i].name.as_str()) {
            Ordering::Less => {
                rows.insert(i, more.copy()?)?;
                return Ok(());
            }
            Ordering::Equal => {
                rows[i].amount += more.amount;
                return Ok(());
            }
            Ordering::Greater => {}
        }
    }
    rows.push(more.copy()?)?;
    Ok(())
}

/// The row of this name has more.
fn raise_known(rows: &mut Vec<Row>, more: &Row)
    requires reached { is_reached more.now.name rows.old.items ≡ true }
    requires room { amount more.now.name rows.old.items + more.now.amount ≤ greatest_sum }
    ensures { rows.new.items ≡ raised more.now.name more.now.amount rows.old.items }
{
    for i in 0..rows.len() {
        if rows[i].name == more.name {
            rows[i].amount += more.amount;
            return;
        }
    }
}

fn raise_all(rows: &mut Vec<Row>, more: &[Row])
    requires reached { AllByRecursion (λ r. is_reached r.name rows.old.items ≡ true) more.now }
    requires room { CanAdd rows.old.items more.now }
    ensures { rows.new.items ≡ plus_rows rows.old.items more.now }
{
    for row in more {
        raise_known(rows, row);
    }
}

fn with_rows(alloc: Global, rows: &[Row], more: &[Row]) -> Result<Vec<Row>, AllocError>
    requires { CanAdd rows.now more.now }
    ensures { IfOk result (λ sum. sum.items ≡ plus_rows rows.now more.now) }
{
    let mut sum = Vec::new(alloc);
    push_copies(&mut sum, rows)?;
    for row in more {
        raise(&mut sum, row)?;
    }
    Ok(sum)
}

fn amount_in(rows: &[Row], name: &str) -> u64
    ensures { result ≡ first_amount name.now rows.now }
{
    for row in rows {
        if row.name.as_str() == name {
            return row.amount;
        }
    }
    0
}

/// Whether there is at least as much of each name as in the resources.
fn covers(sum: &Sum, less: &Resources) -> bool
    ensures { result ≡ covers sum.now less.now }
{
    for row in less.rows() {
        let name = row.name.as_str();
        if less.get(name) > sum.amount(name) {
            return false;
        }
    }
    true
}

/// Whether the amount of each of these names can be added.
fn fits_all(sum: &Sum, more: &Resources) -> bool
    ensures tests { result ≡ fits_all sum.now more.now }
    ensures sum { IsSum sum.now }
    ensures rows { AreRows more.now }
{
    let _sum = sum.rows();
    for row in more.rows() {
        let together = u128::from(sum.amount(row.name.as_str())) + u128::from(row.amount);
        if together > u128::from(GREATEST_SUM) {
            return false;
        }
    }
    true
}

fn amount_of(rows: &[Row], name: &ResourceName) -> u64
    ensures { result ≡ first_amount name.now rows.now }
{
    for row in rows {
        if row.name == *name {
            return row.amount;
        }
    }
    0
}

fn without(alloc: Global, rows: &[Row], less: &Resources) -> Result<Vec<Row>, AllocError>
    ensures { IfOk result (λ rest. rest.items ≡ rest_of rows.now less.now) }
{
    let mut rest = Vec::new(alloc);
    for row in rows {
        let taken = less.get(row.name.as_str());
        if taken < row.amount {
            rest.push(Row {
                name: row.name.copy()?,
                amount: row.amount - taken,
            })?;
        }
    }
    Ok(rest)
}

fn without_sum(alloc: Global, rows: &[Row], less: &Sum) -> Result<Vec<Row>, AllocError>
    ensures { IfOk result (λ rest. rest.items ≡ rest_of rows.now less.now) }
{
    let mut rest = Vec::new(alloc);
    for row in rows {
        let taken = less.amount(row.name.as_str());
        if taken < row.amount {
            rest.push(Row {
                name: row.name.copy()?,
                amount: row.amount - taken,
            })?;
        }
    }
    Ok(rest)
}

impl Sum {
    /// Nothing of any name. It takes no memory.
    pub fn new(alloc: Global) -> Sum
        ensures { result ≡ [] }
    {
        Sum {
            rows: Vec::new(alloc),
        }
    }

    /// The rows, in byte order of their names.
    pub fn rows(&self) -> &[Row]
        ensures rows { result.now ≡ self.now }
        ensures sum { IsSum self.now }
    {
        self.rows.as_slice()
    }

    /// The amount of a name, 0 where there is none. It takes no memory.
    pub fn amount(&self, name: &str) -> u64
        ensures amount { result ≡ amount name.now self.now }
        ensures range { result ≤ greatest_sum }
    {
        amount_in(&self.rows, name)
    }

    fn has_some(&self, name: &ResourceName) -> bool
        ensures { result ≡ has_some self.now name.now }
    {
        amount_of(&self.rows, name) > 0
    }

    /// The sum with more resources.
    pub fn plus(&self, alloc: Global, more: &Resources) -> Result<Sum, AllocError>
        requires { CanAdd self.now more.now }
        ensures { IfOk result (λ sum. sum ≡ plus_rows self.now more.now) }
    {
        let rows = with_rows(alloc, &self.rows, more.rows())?;
        Ok(Sum { rows })
    }

    /// The sum with another.
    pub fn plus_sum(&self, alloc: Global, more: &Sum) -> Result<Sum, AllocError>
        requires { CanAdd self.now more.now }
        ensures { IfOk result (λ sum. sum ≡ plus_rows self.now more.now) }
    {
        let rows = with_rows(alloc, &self.rows, more.rows())?;
        Ok(Sum { rows })
    }

    /// What is left of it where another is taken away: nothing of a name of which as much or more
    /// is taken.
    pub fn less_sum(&self, alloc: Global, less: &Sum) -> Result<Sum, AllocError>
        ensures { IfOk result (λ rest. rest ≡ rest_of self.now less.now) }
    {
        let rows = without_sum(alloc, &self.rows, less)?;
        Ok(Sum { rows })
    }

    /// Whether more resources can be added: of no name is there more than 2^48 then. It takes no
    /// memory.
    pub fn can_add(&self, more: &Resources) -> bool
        ensures { (result ≡ true) ↔ CanAdd self.now more.now }
    {
        fits_all(self, more)
    }

    /// Whether there is some of each of these names. It takes no memory.
    pub fn has_names_of(&self, more: &Resources) -> bool
        ensures { result ≡ has_names_of self.now more.now }
    {
        more.rows().iter().all(|row| self.has_some(&row.name))
    }

    /// There is more of names of which there is some. It takes no memory.
    pub fn add(&mut self, more: &Resources)
        requires names { has_names_of self.old more.now ≡ true }
        requires room { CanAdd self.old more.now }
        ensures { self.new ≡ plus_rows self.old more.now }
    {
        raise_all(&mut self.rows, more.rows());
    }

    /// The sum without some resources; `P1 NotHeld` where there is less of some name.
    pub fn minus(&self, alloc: Global, less: &Resources) -> Result<Sum, SharesFault>
        ensures ok { IfOk result (λ rest. rest ≡ rest_of self.now less.now) }
        ensures covered { OnOk result (covers self.now less.now ≡ true) }
        ensures refused { result ≡ Err SharesFault.NotHeld → covers self.now less.now ≡ false }
    {
        if !covers(self, less) {
            return Err(SharesFault::NotHeld);
        }
        let rows = without(alloc, &self.rows, less)?;
        Ok(Sum { rows })
    }
}
