//! Records, with what their live tasks leave of the total.

ghost use Rattle.std.specs.Prelude.{◌≡◌, ◌++◌, true, IfOk, IfSome, is_some};
ghost use Rattle.quantity.specs.Rows.{covers};
ghost use Rattle.cluster_model.specs.Agents.{live_tasks, task_rows};
ghost use Rattle.agent_core.specs.Room.{Leaves};
ghost use Rattle.agent_core.specs.Records.{HasRoom, is_record};

use crate::record::Record;
use messages::RecordParts;
use quantity::Resources;
use std::alloc::{AllocError, Global};
use std::marker::Model;
use values::Plain;

/// A record, and resources that its live tasks leave of the total, where some are known.
#[derive(Drop)]
pub struct RecordWithRoom {
    durable: Record,
    /// At most what the live tasks leave.
    room: Option<Resources>,
}

impl Model for RecordWithRoom {
    ghost use Rattle.std.specs.Prelude.{IfSome};
    ghost use Rattle.messages.specs.declared.record.RecordParts.{RecordParts};
    ghost use Rattle.agent_core.specs.Records.{HasRoom};

    ghost Value = { RecordParts };

    ghost view = { λ r. r.durable };

    ghost invariant = { λ r. IfSome r.room (λ room. HasRoom room r.durable) };
}

impl RecordWithRoom {
    /// No room is known. It takes no memory.
    pub fn of(durable: Record) -> RecordWithRoom
        ensures { result ≡ durable }
    {
        RecordWithRoom {
            durable,
            room: None,
        }
    }

    /// The record of parts that are known to be those of one, with a room that its live tasks leave.
    pub fn make(parts: RecordParts, room: Resources) -> RecordWithRoom
        requires recorded { is_record parts ≡ true }
        requires room { HasRoom room parts }
        ensures { result ≡ parts }
    {
        RecordWithRoom {
            durable: Record::make(parts),
            room: Some(room),
        }
    }

    pub fn record(&self) -> &Record
        ensures { result.now ≡ self.now }
    {
        &self.durable
    }

    pub fn copy(&self) -> Result<RecordWithRoom, AllocError>
        ensures { IfOk result (λ r. r ≡ self.now) }
    {
        let durable = self.durable.copy()?;
        let room = match &self.room {
            Some(room) => Some(room.copy()?),
            None => None,
        };
        Ok(RecordWithRoom { durable, room })
    }

    /// A room that the live tasks leave; nothing, where none is known.
    pub fn room(&self, alloc: Global) -> Result<Resources, AllocError>
        ensures { IfOk result (λ room. HasRoom room self.now) }
    {
        quantity::covers_is_at_least();
        let _recorded = self.durable.parts();
        match &self.room {
            Some(room) => Ok(room.copy()?),
            None => Ok(Resources::new(alloc)),
        }
    }

    /// A room that the live tasks leave beside some resources; None where there is none for these.
    /// Where the room that is known has them no task is looked at.
    pub fn room_beside(
        &self,
        alloc: Global,
        resources: &Resources,
    ) -> Result<Option<Resources>, AllocError>
        ensures some { IfOk result (λ room. is_some room ≡ covers self.now.total
            (resources.now ++ task_rows (live_tasks self.now.tasks))) }
        ensures left { IfOk result (λ room. IfSome room (λ rest. Leaves rest
            (resources.now ++ task_rows (live_tasks self.now.tasks)) self.now.total)) }
    {
        quantity::amounts_add_up();
        quantity::covers_is_at_least();
        if let Some(room) = &self.room {
            if room.covers(resources) {
                let mut rest = room.copy()?;
                rest.reduce_by(resources);
                return Ok(Some(rest));
            }
        }
        let parts = self.durable.parts();
        crate::tasks::room_beside(alloc, &parts.total, resources, parts.tasks.as_slice())
    }
}
