//! The tables of a store of an agent's record and of the master's last run:
//! whether a schema is that of these.
#![tactic(auto)]

ghost use Rattle.std.specs.Prelude.{◌≡◌, ◌<◌, ◌↔◌, ◌∷◌, [], ℕ, IsTrue, IfNone, IfSome, List, None, Some, codes, false, true, length, pos, slice_get};
ghost use Rattle.sqlite_schema.specs.Code.{terms_in};
ghost use Rattle.sqlite.specs.Kind.TheVariants.{Integer, Text as Words};
ghost use Rattle.sqlite_value.specs.Keys.{plain};
ghost use Rattle.sqlite_schema.specs.declared.schema.Column.{Column};
ghost use Rattle.sqlite.specs.declared.types.Value.TheVariants.{Int};
ghost use Rattle.sqlite_sql.specs.declared.ops.BinaryOp.TheVariants.{Compare};
ghost use Rattle.sqlite_sql.specs.declared.ops.CompareOp.TheVariants.{Eq};
ghost use Rattle.sqlite.specs.Collation.TheVariants.{Binary};
ghost use Rattle.keep_tables.specs.Schemas.{no_schema, first_schema, second_schema, keeper_schema, lone_table, record_table, run_table, head_table, task_table, task_index, total_table, total_index, head_columns, task_columns, total_columns, column_of, index_of, id_check, no_stamps, id_column};

mod rows;

pub use rows::{
    KeepFault, Rows, amount_at, changes, corrupt, fault_of, number_at, read_rows, statements,
    text_at, total_of, write_total,
};
use sqlite_schema::code::{Op, Terms};
use sqlite_schema::schema::{Column, Index, Kind, Schema, Stamps, Table};
use sqlite_sql::ops::{BinaryOp, CompareOp};
use sqlite_value::keys::Collation;
use sqlite_value::value::Value;

fn is_column(column: &Column, name: &[u8], kind: Kind, not_null: bool) -> bool
    ensures { IsTrue result ↔ (column.now ≡ column_of name.now kind not_null) }
{
    column.name.as_slice() == name
        && column.kind == kind
        && !column.is_strict
        && column.not_null == not_null
        && matches!(column.default, Value::Null)
        && column.collation == Collation::Binary
}

/// The node at a place is the column of the id.
fn is_id_at(ops: &[Op], at: usize) -> bool
    ensures { IsTrue result ↔ (slice_get ops.now at ≡ Some (Op.Column 1 0)) }
{
    matches!(ops.get(at), Some(Op::Column(1, 0)))
}

/// The node at a place is the number 1.
fn is_one_at(ops: &[Op], at: usize) -> bool
    ensures { IsTrue result ↔ (slice_get ops.now at ≡ Some (Op.Literal (Int (pos 1)))) }
{
    matches!(ops.get(at), Some(Op::Literal(Value::Int(1))))
}

/// The places of the operands, where the node at a place is an equality.
fn operands_at(ops: &[Op], at: usize) -> Option<(usize, usize)>
    ensures some { IfSome result
        (λ p. slice_get ops.now at ≡ Some (Op.Binary (Compare Eq Binary) p.0 p.1)) }
    ensures none { IfNone result ((a b : ℕ)
        → slice_get ops.now at ≡ Some (Op.Binary (Compare Eq Binary) a b) → ⊥) }
{
    match ops.get(at) {
        Some(Op::Binary(BinaryOp::Compare(CompareOp::Eq, Collation::Binary), left, right)) => {
            Some((*left, *right))
        }
        _ => None,
    }
}

/// The nodes at these places are the operands of the check that the id is 1.
fn are_operands(ops: &[Op], left: usize, right: usize) -> bool
    ensures { IsTrue result ↔ ((1 < length ops.now)
        × (slice_get ops.now left ≡ Some (Op.Column 1 0))
        × (slice_get ops.now right ≡ Some (Op.Literal (Int (pos 1))))) }
{
    ops.len() > 1 && is_id_at(ops, left) && is_one_at(ops, right)
}

/// The tree of an expression is the check that the id is 1.
fn is_check_at(ops: &[Op], root: usize) -> bool
    ensures { IsTrue result ↔ (terms_in ops.now (root ∷ []) ≡ id_check) }
{
    let Some((left, right)) = operands_at(ops, root) else {
        return false;
    };
    are_operands(ops, left, right)
}

/// The only check is that the id is 1.
fn is_check(checks: &Terms) -> bool
    ensures { IsTrue result ↔ (checks.now ≡ id_check) }
{
    let [root] = checks.roots.as_slice() else {
        return false;
    };
    is_check_at(checks.nodes.as_slice(), *root)
}

fn is_plain(stamps: &Stamps) -> bool
    ensures { IsTrue result ↔ (stamps.now ≡ no_stamps) }
{
    stamps.places.is_empty() && stamps.terms.roots.is_empty() && stamps.formats.is_empty()
}

fn are_columns(columns: &[Column], name: &[u8], kind: Kind) -> bool
    ensures { IsTrue result ↔ (columns.now ≡ id_column ∷ column_of name.now kind true ∷ []) }
{
    columns.len() == 2
        && is_column(&columns[0], b"id", Kind::Integer, false)
        && is_column(&columns[1], name, kind, true)
}

fn are_first_of_head(id: &Column, name: &Column, run: &Column) -> bool
    ensures { IsTrue result ↔ ((id.now ≡ id_column)
        × (name.now ≡ column_of (codes "name") Words true)
        × (run.now ≡ column_of (codes "run") Integer true)) }
{
    is_column(id, b"id", Kind::Integer, false)
        && is_column(name, b"name", Kind::Text, true)
        && is_column(run, b"run", Kind::Integer, true)
}

fn are_last_of_head(session: &Column, total: &Column, version: &Column) -> bool
    ensures { IsTrue result ↔ ((session.now ≡ column_of (codes "session") Integer true)
        × (total.now ≡ column_of (codes "total") Words true)
        × (version.now ≡ column_of (codes "version") Integer true)) }
{
    is_column(session, b"session", Kind::Integer, true)
        && is_column(total, b"total", Kind::Text, true)
        && is_column(version, b"version", Kind::Integer, true)
}

fn are_head_columns(columns: &[Column]) -> bool
    ensures { IsTrue result ↔ (columns.now ≡ id_column ∷ head_columns) }
{
    let [id, name, run, session, total, version] = columns else {
        return false;
    };
    are_first_of_head(id, name, run) && are_last_of_head(session, total, version)
}

fn are_task_columns(columns: &[Column]) -> bool
    ensures { IsTrue result ↔ (columns.now ≡ task_columns) }
{
    columns.len() == 3
        && is_column(&columns[0], b"run", Kind::Integer, true)
        && is_column(&columns[1], b"n", Kind::Integer, true)
        && is_column(&columns[2], b"body", Kind::Text, true)
}

/// What the tables have none of.
fn is_simple(table: &Table) -> bool
    ensures { IsTrue result ↔ ((table.now.references ≡ []) × (table.now.computed ≡ [])
        × (table.now.stamps ≡ no_stamps) × (table.now.is_counted ≡ false)) }
{
    table.references.is_empty()
        && table.computed.is_empty()
        && is_plain(&table.stamps)
        && !table.is_counted
}

/// The table of an id, which is 1, and the columns that it has after it.
fn is_lone(table: &Table, name: &[u8], tree: u32) -> bool
    ensures lone { (columns : List Column) → IsTrue result → table.now.columns ≡ id_column ∷ columns
        → table.now ≡ lone_table name.now tree columns }
    ensures is { (columns : List Column) → table.now ≡ lone_table name.now tree columns
        → IsTrue result }
{
    table.name.as_slice() == name
        && table.tree == tree
        && table.key == Some(0)
        && table.primary.as_slice() == [0].as_slice()
        && table.uniques.is_empty()
        && table.orders.is_empty()
        && is_check(&table.checks)
        && is_simple(table)
}

fn is_table(table: &Table, name: &[u8], tree: u32, column: &[u8], kind: Kind) -> bool
    ensures { IsTrue result ↔ (table.now ≡ lone_table name.now tree
        (column_of column.now kind true ∷ [])) }
{
    is_lone(table, name, tree) && are_columns(table.columns.as_slice(), column, kind)
}

fn is_head(table: &Table) -> bool
    ensures { IsTrue result ↔ (table.now ≡ head_table) }
{
    is_lone(table, b"agent_head", 2) && are_head_columns(table.columns.as_slice())
}

/// The columns at these places are the only ones that are unique together.
fn has_unique(table: &Table, columns: &[usize]) -> bool
    ensures { IsTrue result ↔ (table.now.uniques ≡ columns.now ∷ []) }
{
    let [unique] = table.uniques.as_slice() else {
        return false;
    };
    unique.as_slice() == columns
}

fn has_order(table: &Table) -> bool
    ensures { IsTrue result ↔ (table.now.orders ≡ plain ∷ []) }
{
    let [order] = table.orders.as_slice() else {
        return false;
    };
    order.digits == 0
}

/// The primary key is that of the columns at these places, and no rowid.
fn has_key(table: &Table, columns: &[usize]) -> bool
    ensures { IsTrue result ↔ ((table.now.key ≡ None) × (table.now.primary ≡ columns.now)
        × (table.now.uniques ≡ columns.now ∷ []) × (table.now.orders ≡ plain ∷ [])) }
{
    table.key.is_none()
        && table.primary.as_slice() == columns
        && has_unique(table, columns)
        && has_order(table)
}

fn is_task(table: &Table) -> bool
    ensures { IsTrue result ↔ (table.now ≡ task_table) }
{
    table.name.as_slice() == b"agent_task".as_slice()
        && table.tree == 3
        && are_task_columns(table.columns.as_slice())
        && has_key(table, &[1, 2])
        && table.checks.roots.is_empty()
        && is_simple(table)
}

/// A unique index of the columns at these places.
fn is_index(index: &Index, name: &[u8], tree: u32, table: u32, columns: &[usize]) -> bool
    ensures { IsTrue result ↔ (index.now ≡ index_of name.now tree table columns.now) }
{
    index.name.as_slice() == name
        && index.tree == tree
        && index.table == table
        && index.columns.as_slice() == columns
        && index.order.digits == 0
        && index.is_unique
}

fn is_task_index(index: &Index) -> bool
    ensures { IsTrue result ↔ (index.now ≡ task_index) }
{
    is_index(index, b"sqlite_autoindex_agent_task_1", 4, 3, &[1, 2])
}

fn are_total_columns(columns: &[Column]) -> bool
    ensures { IsTrue result ↔ (columns.now ≡ total_columns) }
{
    columns.len() == 2
        && is_column(&columns[0], b"name", Kind::Text, false)
        && is_column(&columns[1], b"amount", Kind::Integer, true)
}

fn is_total(table: &Table) -> bool
    ensures { IsTrue result ↔ (table.now ≡ total_table) }
{
    table.name.as_slice() == b"agent_total".as_slice()
        && table.tree == 5
        && are_total_columns(table.columns.as_slice())
        && has_key(table, &[1])
        && table.checks.roots.is_empty()
        && is_simple(table)
}

fn is_total_index(index: &Index) -> bool
    ensures { IsTrue result ↔ (index.now ≡ total_index) }
{
    is_index(index, b"sqlite_autoindex_agent_total_1", 6, 5, &[1])
}

fn are_first(tables: &[Table]) -> bool
    ensures { IsTrue result ↔ ((length tables.now ≡ 2)
        × (tables.now ≡ record_table ∷ run_table ∷ [])) }
{
    tables.len() == 2
        && is_table(&tables[0], b"agent_record", 0, b"body", Kind::Text)
        && is_table(&tables[1], b"run_number", 1, b"last", Kind::Integer)
}

fn are_both(record: &Table, run: &Table) -> bool
    ensures { IsTrue result ↔ ((record.now ≡ record_table) × (run.now ≡ run_table)) }
{
    is_table(record, b"agent_record", 0, b"body", Kind::Text)
        && is_table(run, b"run_number", 1, b"last", Kind::Integer)
}

fn are_second(tables: &[Table]) -> bool
    ensures { IsTrue result ↔ (tables.now
        ≡ record_table ∷ run_table ∷ head_table ∷ task_table ∷ []) }
{
    let [record, run, head, task] = tables else {
        return false;
    };
    are_both(record, run) && is_head(head) && is_task(task)
}

fn are_all(tables: &[Table]) -> bool
    ensures { IsTrue result ↔ (tables.now ≡ record_table ∷ run_table ∷ head_table ∷ task_table
        ∷ total_table ∷ []) }
{
    let [record, run, head, task, total] = tables else {
        return false;
    };
    are_both(record, run) && is_head(head) && is_task(task) && is_total(total)
}

fn are_indexes(indexes: &[Index]) -> bool
    ensures { IsTrue result ↔ (indexes.now ≡ task_index ∷ total_index ∷ []) }
{
    let [task, total] = indexes else {
        return false;
    };
    is_task_index(task) && is_total_index(total)
}

/// The schema is that of the five tables.
pub fn is_ours(schema: &Schema) -> bool
    ensures { IsTrue result ↔ (schema.now ≡ keeper_schema) }
{
    are_all(schema.tables.as_slice())
        && are_indexes(schema.indexes.as_slice())
        && schema.views.is_empty()
}

/// The schema is that of the four tables which a store had that kept an agent's total in its head.
pub fn is_second(schema: &Schema) -> bool
    ensures { IsTrue result ↔ (schema.now ≡ second_schema) }
{
    let indexes = schema.indexes.as_slice();
    are_second(schema.tables.as_slice())
        && indexes.len() == 1
        && is_task_index(&indexes[0])
        && schema.views.is_empty()
}

/// The schema is that of the two tables which a store had that kept a record as one text.
pub fn is_first(schema: &Schema) -> bool
    ensures { IsTrue result ↔ (schema.now ≡ first_schema) }
{
    are_first(schema.tables.as_slice()) && schema.indexes.is_empty() && schema.views.is_empty()
}

/// There is no table yet.
pub fn is_new(schema: &Schema) -> bool
    ensures { IsTrue result ↔ (schema.now ≡ no_schema) }
{
    schema.tables.is_empty() && schema.indexes.is_empty() && schema.views.is_empty()
}
