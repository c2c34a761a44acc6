//! The index of open streams.

ghost use Rattle.std.specs.Prelude.{◌≡◌, Some, OnOk, OnErr};
ghost use Rattle.names_core.specs.Ids.{Numbered};
ghost use Rattle.cluster_model.specs.Masters.{put_framework};
ghost use Rattle.master_state.specs.OpenStreams.{IsTable, led_by, without};

use crate::registry::edit::put;
use crate::registry::look::open_stream;
use messages::Framework;
use names_core::{FrameworkId, StreamId};
use std::alloc::AllocError;
use std::collections::BTreeMap;

/// Removes this stream, if it is one, from the index.
pub fn shut(by_stream: &mut BTreeMap<StreamId, FrameworkId>, stream: Option<StreamId>)
    ensures { (s : Numbered) → led_by by_stream.new s ≡ without stream (led_by by_stream.old) s }
{
    if let Some(stream) = stream {
        let _framework = by_stream.remove(&stream);
    }
}

/// Inserts a framework at its place by id, and its open stream into the index, in place of the one
/// that the framework had. It fails for want of memory, and where the stream is in the index.
pub fn put_open(
    frameworks: &mut Vec<Framework>,
    by_stream: &mut BTreeMap<StreamId, FrameworkId>,
    framework: Framework,
    stream: StreamId,
) -> Result<(), AllocError>
    requires table { IsTable (led_by by_stream.old) frameworks.old.items }
    requires stream { framework.stream ≡ Some stream }
    ensures ok { OnOk result (frameworks.new.items ≡ put_framework framework frameworks.old.items) }
    ensures err { OnErr result (frameworks.new.items ≡ frameworks.old.items) }
    ensures table { IsTable (led_by by_stream.new) frameworks.new.items }
{
    if by_stream.contains_key(&stream) {
        return Err(AllocError);
    }
    let id = framework.id;
    let before = open_stream(frameworks, id);
    by_stream.insert(stream, id)?;
    match put(frameworks, framework) {
        Ok(()) => {
            shut(by_stream, before);
            Ok(())
        }
        Err(fault) => {
            shut(by_stream, Some(stream));
            Err(fault)
        }
    }
}
