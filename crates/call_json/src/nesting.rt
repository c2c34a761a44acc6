//! How deep values nest (RFC 8259, section 9:
//! an implementation may set limits on the depth of nesting).

ghost use Rattle.std.specs.Prelude.{◌≤◌, ◌↔◌, IsTrue};
ghost use Rattle.serde_json.specs.Data.{depth, items_depth, members_depth};
ghost use Rattle.serde_json.specs.View.{view, items_view, members_view};

use serde_json::{Map, Value};

/// Whether arrays and objects nest at most so many levels deep in a value.
#[cycle(nests_within)]
pub(crate) fn nests_within(value: &Value, levels: u32) -> bool
    ensures { IsTrue result ↔ (depth (view value.now) ≤ levels) }
{
    match value {
        Value::Array(items) => levels > 0 && items_nest_within(items, levels - 1),
        Value::Object(members) => levels > 0 && members_nest_within(members, levels - 1),
        _ => true,
    }
}

#[cycle(nests_within)]
fn items_nest_within(items: &Vec<Value>, levels: u32) -> bool
    ensures { IsTrue result ↔ (items_depth (items_view items.now.items) ≤ levels) }
{
    for item in items {
        if !nests_within(item, levels) {
            return false;
        }
    }
    true
}

#[cycle(nests_within)]
fn members_nest_within(members: &Map<String, Value>, levels: u32) -> bool
    ensures { IsTrue result ↔ (members_depth (members_view members.now.entries) ≤ levels) }
{
    for (_, member) in members.iter() {
        if !nests_within(member, levels) {
            return false;
        }
    }
    true
}
