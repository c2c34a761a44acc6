//! What the writer of a configuration may not have meant, in words.

use crate::Config;
use crate::agents::places::shown_name;
use serde::{Deserialize, Deserializer, Format, Kind};
use std::alloc::{AllocError, Global};
use std::collections::HashSet;

/// The members of an object as they are written, each name as often as it is given; none of a value
/// of another kind.
#[derive(Drop)]
struct Written<T> {
    rows: Vec<(String, T)>,
}

/// A value that isn't looked into.
#[derive(Drop)]
struct Ignored;

impl<'de> Deserialize<'de> for Ignored {
    fn deserialize<F: Format>(
        _alloc: Global,
        from: &mut Deserializer<'de, '_, F>,
    ) -> Result<Ignored, F::Error> {
        from.skip()?;
        Ok(Ignored)
    }
}

/// The members of the object that comes next.
fn written_rows<'de, T: Deserialize<'de>, F: Format>(
    alloc: Global,
    from: &mut Deserializer<'de, '_, F>,
) -> Result<Vec<(String, T)>, F::Error> {
    from.begin_map()?;
    let mut rows = Vec::new(alloc);
    for _ in 0..u64::MAX {
        if !from.next_entry()? {
            break;
        }
        let name = from.string(alloc)?;
        let value = T::deserialize(alloc, from)?;
        if rows.push((name, value)).is_err() {
            return Err(from.no_memory());
        }
    }
    Ok(rows)
}

impl<'de, T: Deserialize<'de>> Deserialize<'de> for Written<T> {
    fn deserialize<F: Format>(
        alloc: Global,
        from: &mut Deserializer<'de, '_, F>,
    ) -> Result<Written<T>, F::Error> {
        if from.peek()? == Kind::Map {
            return Ok(Written {
                rows: written_rows(alloc, from)?,
            });
        }
        from.skip()?;
        Ok(Written {
            rows: Vec::new(alloc),
        })
    }
}

/// A configuration as it is written: its members, their members, and theirs.
type WrittenLine = Written<Written<Written<Ignored>>>;

/// Adds a note on each name that is given again.
fn note_repeats<T>(
    alloc: Global,
    path: &str,
    rows: &[(String, T)],
    notes: &mut Vec<String>,
) -> Result<(), AllocError> {
    let mut names = HashSet::new(alloc);
    for (name, _) in rows {
        if !names.insert(name.as_str())? {
            let name = shown_name(alloc, name.as_str())?;
            notes.push(format!(in alloc; "{path}{name} is given twice, and the last one counts")?)?;
        }
    }
    Ok(())
}

/// Adds the notes on the names within a member of the line.
fn note_member(
    alloc: Global,
    name: &str,
    member: &Written<Written<Ignored>>,
    notes: &mut Vec<String>,
) -> Result<(), AllocError> {
    let path = format!(in alloc; "{name}.")?;
    note_repeats(alloc, &path, &member.rows, notes)?;
    for (inner, value) in &member.rows {
        let shown = shown_name(alloc, inner.as_str())?;
        let path = format!(in alloc; "{name}.{shown}.")?;
        note_repeats(alloc, &path, &value.rows, notes)?;
    }
    Ok(())
}

/// Adds the notes on the names that a line gives twice.
fn note_line(alloc: Global, line: &WrittenLine, notes: &mut Vec<String>) -> Result<(), AllocError> {
    note_repeats(alloc, "", &line.rows, notes)?;
    for (name, member) in &line.rows {
        note_member(alloc, name.as_str(), member, notes)?;
    }
    Ok(())
}

/// Adds a note on each agent that owns nothing.
fn note_owners(alloc: Global, config: &Config, notes: &mut Vec<String>) -> Result<(), AllocError> {
    for agent in config.agents.agents() {
        if agent.total.rows().is_empty() {
            let name = agent.name.as_text();
            notes.push(format!(in alloc; "agents.{name} owns nothing, so none of it is offered")?)?;
        }
    }
    Ok(())
}

/// What the writer of a line may not have meant, which is this configuration: a name that is given
/// twice, and an agent that owns nothing. A sentence each.
pub(crate) fn notes_on(
    alloc: Global,
    line: &[u8],
    config: &Config,
) -> Result<Vec<String>, AllocError> {
    let mut notes = Vec::new(alloc);
    match serde_json::from_slice::<WrittenLine>(alloc, line) {
        Ok(written) => note_line(alloc, &written, &mut notes)?,
        Err(error) if error.is_memory() => return Err(AllocError),
        Err(_) => {}
    }
    note_owners(alloc, config, &mut notes)?;
    Ok(notes)
}
