//! The tasks that a load found, whose rows are known to be there.

ghost use Rattle.std.specs.Prelude.{◌≡◌, ◌≢◌, true, IsTrue, Some, length};
ghost use Rattle.std.specs.List.{AllByRecursion};
ghost use Rattle.sqlite.specs.Tree.{Trees};
ghost use Rattle.messages.specs.declared.record.RecordParts.{RecordParts};
ghost use Rattle.keep_store.specs.SavesKept.{AreSeen, IsPut, Knows};
ghost use Rattle.keep_store.specs.Kept.{AreTasksOf, IsPlaced};
ghost use Rattle.keep_tables.specs.Tables.{Shows};

use agent_core::Record;
use keep_tables::Rows;
use messages::RecordedTask;
use sqlite::Row;
use values::{Listed, Plain, Shared};

/// Whether a row of rowid, run, number and body is at the place of its task.
/// False also where memory runs out.
fn is_placed(row: &Row) -> bool
    ensures { IsTrue result → IsPlaced row.now }
{
    let (Ok(place), Ok(run), Ok(number)) = (row.get::<u64>(0), row.get::<u32>(1), row.get::<u32>(2))
    else {
        return false;
    };
    place == u64::from(run) * 4_294_967_296 + u64::from(number)
}

/// Whether each row of rowid, run, number and body is at the place of its task.
fn are_placed(rows: &[Row]) -> bool
    ensures { IsTrue result → AllByRecursion IsPlaced rows.now }
{
    for row in rows {
        if !is_placed(row) {
            return false;
        }
    }
    true
}

/// The tasks of a record that was found with a head, where each row is at its task's place.
pub fn seen_in(rows: &Rows, found: &Option<Record>) -> Option<Listed<Shared<RecordedTask>>>
    requires read_back { (d : RecordParts) → found.now ≡ Some d → length rows.now.heads.items ≢ 0
        → AreTasksOf rows.now.tasks.items d.tasks × AllByRecursion IsPut d.tasks }
    ensures put { AreSeen result }
    ensures knows { (db : Trees)
        → Shows db rows.now.records.items rows.now.heads.items rows.now.tasks.items
        rows.now.amounts.items
        → Knows result db }
{
    let Some(record) = found else {
        return None;
    };
    if rows.heads.is_empty() || !are_placed(rows.tasks.as_slice()) {
        return None;
    }
    record.parts().tasks.copy().ok()
}
