//! Rows of resources, in the byte order of their names.

ghost use Rattle.std.specs.Prelude.{◌≡◌, ◌++◌, ◌≤◌, ◌<◌, List, nat_eq, nat_lt, length, map, filter, take, OnOk, OnErr, IfOk, IfErr, IsTrue};
ghost use Rattle.std.specs.List.{list_any, AllByRecursion};
ghost use Rattle.std.specs.Cmp.Lexicographic.{pointwise};
ghost use Rattle.std.specs.List.Sorted.{IsStrictlySortedBy};
ghost use Rattle.quantity.specs.Rows.{amount, covers, name_order, names_limit, greatest_amount, within_limits, IsRow, AreRows, left_of, rest_of, raised, plus_rows};
ghost use Rattle.quantity.specs.Names.{is_resource_name};
ghost use Rattle.quantity.specs.Faults.{IsRefusal};
ghost use Rattle.quantity.specs.Merging.{is_below, count_below, rows_from, front_amount, rows_past, sum_upto};

use crate::fault::QuantityFault;
use crate::name::ResourceName;
use std::alloc::{AllocError, Global};
use values::{Plain, push_copies};

/// No amount is greater.
const GREATEST_AMOUNT: u64 = 1 << 40;

/// Rows have no more names.
const NAMES_LIMIT: usize = 8;

/// How much there is of one resource.
#[derive(Clone, Debug, Drop, PartialEq)]
pub struct Row {
    pub name: ResourceName,
    pub amount: u64,
}

impl Plain for Row {
    ghost use Rattle.std.proofs.Common.{rules};

    ghost cloned = { Prim.search rules };

    ghost decided = { Prim.search rules };
}

impl Row {
    fn is_of(&self, name: &str) -> bool
        ensures { result ≡ pointwise nat_eq self.now.name name.now }
    {
        self.name.as_str() == name
    }

    fn is_below(&self, name: &str) -> bool
        ensures { result ≡ is_below name.now self.now }
    {
        self.name.as_str().cmp(name).is_lt()
    }
}

/// How many of the first rows have names before this one.
pub(crate) fn count_below(rows: &[Row], name: &str) -> usize
    ensures count { result ≡ count_below name.now rows.now }
    ensures within { result ≤ length rows.now }
{
    rows.iter().take_while(|row| row.is_below(name)).count()
}

/// The rows from this name on.
fn rows_from<'a>(rows: &'a [Row], name: &str) -> &'a [Row]
    ensures { result.now ≡ rows_from name.now rows.now }
{
    &rows[count_below(rows, name)..]
}

/// What the first row has of a name.
fn front_amount(rows: &[Row], name: &str) -> u64
    ensures { result ≡ front_amount name.now rows.now }
{
    match rows.first() {
        Some(row) if row.is_of(name) => row.amount,
        _ => 0,
    }
}

/// The rows without the first, where it has this name.
fn rows_past<'a>(rows: &'a [Row], name: &str) -> &'a [Row]
    ensures { result.now ≡ rows_past name.now rows.now }
{
    match rows.split_first() {
        Some((row, others)) if row.is_of(name) => others,
        _ => rows,
    }
}

/// What rows in order have of a name.
pub(crate) fn amount_in(rows: &[Row], name: &str) -> u64
    requires { AreRows rows.now }
    ensures amount { result ≡ amount name.now rows.now }
    ensures small { result ≤ greatest_amount }
{
    front_amount(rows_from(rows, name), name)
}

/// Whether the rows in a total have at least as much of each name as other rows.
pub(crate) fn covers(total: &[Row], rows: &[Row]) -> bool
    requires total_ordered { IsStrictlySortedBy name_order total.now }
    requires rows_ordered { IsStrictlySortedBy name_order rows.now }
    ensures { result ≡ covers total.now rows.now }
{
    let mut rest = total;
    for row in rows {
        let name = row.name.as_str();
        rest = rows_from(rest, name);
        if front_amount(rest, name) < row.amount {
            return false;
        }
    }
    true
}

/// Subtracts from each row what others have of its name; rows with nothing left stay.
fn take_away(rows: &mut [Row], others: &[Row])
    requires rows_ordered { IsStrictlySortedBy name_order rows.old }
    requires others_ordered { IsStrictlySortedBy name_order others.now }
    ensures { rows.new ≡ map (left_of others.now) rows.old }
{
    let mut rest = others;
    for row in rows.iter_mut() {
        let name = row.name.as_str();
        rest = rows_from(rest, name);
        let taken = front_amount(rest, name);
        row.amount = row.amount.saturating_sub(taken);
    }
}

/// Appends to a sum the rows before another row, and that row with what there is of its name. It
/// returns the rows after it.
fn push_sum<'a>(
    alloc: Global,
    sum: &mut Vec<Row>,
    rest: &'a [Row],
    other: &Row,
) -> Result<&'a [Row], AllocError>
    requires few { length rest.now ≤ names_limit }
    requires rest_are { AllByRecursion IsRow rest.now }
    requires other_is { IsRow other.now }
    ensures sum { OnOk result (sum.new.items ≡ sum.old.items ++ sum_upto rest.now other.now) }
    ensures behind { IfOk result (λ behind. behind.now
        ≡ rows_past other.now.name (rows_from other.now.name rest.now)) }
{
    let name = other.name.as_str();
    let below = count_below(rest, name);
    let from = &rest[below..];
    push_copies(sum, &rest[..below])?;
    sum.push(Row {
        name: other.name.copy()?,
        amount: front_amount(from, name) + other.amount,
    })?;
    Ok(rows_past(from, name))
}

/// Drops the rows with nothing left.
fn drop_spent(rows: &mut Vec<Row>)
    ensures { rows.new.items ≡ filter (λ r. nat_lt 0 r.amount) rows.old.items }
{
    rows.retain(|row| row.amount > 0);
}

/// Leaves of rows in order what others in order don't take.
pub(crate) fn reduce(rows: &mut Vec<Row>, others: &[Row])
    requires rows_ordered { IsStrictlySortedBy name_order rows.old.items }
    requires others_ordered { IsStrictlySortedBy name_order others.now }
    ensures { rows.new.items ≡ rest_of rows.old.items others.now }
{
    take_away(rows.as_mut_slice(), others);
    drop_spent(rows);
}

/// The rows of a sum.
pub(crate) fn merged(alloc: Global, rows: &[Row], others: &[Row]) -> Result<Vec<Row>, AllocError>
    requires rows_are { AreRows rows.now }
    requires others_are { AreRows others.now }
    ensures { IfOk result (λ sum. sum.items ≡ plus_rows rows.now others.now) }
{
    let mut sum = Vec::new(alloc);
    let mut rest = rows;
    for other in others {
        rest = push_sum(alloc, &mut sum, rest, other)?;
    }
    push_copies(&mut sum, rest)?;
    Ok(sum)
}

fn has_large(rows: &[Row]) -> bool
    ensures { result ≡ list_any (λ r. nat_lt greatest_amount r.amount) rows.now }
{
    rows.iter().any(|row| row.amount > GREATEST_AMOUNT)
}

/// Whether rows keep within the limits of amounts and names.
pub(crate) fn check_limits(rows: &[Row]) -> Result<(), QuantityFault>
    ensures ok { OnOk result (within_limits rows.now ≡ Ok rows.now) }
    ensures refused { IfErr result (λ fault. IsRefusal fault (within_limits rows.now)) }
{
    if has_large(rows) {
        return Err(QuantityFault::TooLarge);
    }
    if rows.len() > NAMES_LIMIT {
        return Err(QuantityFault::TooManyNames);
    }
    Ok(())
}

/// Adds an amount over 0 of a name to rows in order.
pub(crate) fn raise(
    alloc: Global,
    rows: &mut Vec<Row>,
    name: &str,
    amount: u64,
) -> Result<(), QuantityFault>
    requires are { AreRows rows.old.items }
    requires named { IsTrue (is_resource_name name.now) }
    ensures ok { OnOk result (within_limits (raised name.now amount rows.old.items)
        ≡ Ok rows.new.items) }
    ensures refused { IfErr result
        (λ fault. IsRefusal fault (within_limits (raised name.now amount rows.old.items))) }
    ensures err { OnErr result (rows.new.items ≡ rows.old.items) }
{
    let place = count_below(rows, name);
    let had = amount_in(rows, name);
    if amount > GREATEST_AMOUNT - had {
        return Err(QuantityFault::TooLarge);
    }
    if had > 0 {
        rows[place].amount = had + amount;
        return Ok(());
    }
    if rows.len() == NAMES_LIMIT {
        return Err(QuantityFault::TooManyNames);
    }
    let name = ResourceName::from_text(alloc, name)?;
    rows.insert(place, Row { name, amount })?;
    Ok(())
}
