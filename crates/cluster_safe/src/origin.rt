//! Where tasks and acknowledgements come from, entry by entry:
//! what holds after every list of steps, over every good opening.

ghost use Rattle.cluster_model.specs.Openings.{GoodOpening, recorded_jobs};
ghost use Rattle.cluster_model.specs.Steps.{Setup, Marked, history};
ghost use Rattle.cluster_safe.specs.Acks.{AcksAreOwners};
ghost use Rattle.cluster_safe.specs.Entries.{moments};
ghost use Rattle.cluster_safe.specs.Launches.{Origin};
ghost use Rattle.cluster_safe.specs.Sources.{HaveSources, Traced};
ghost use Rattle.cluster_safe.specs.Origin.{jobs_of, trail_after};
ghost use Rattle.messages.specs.declared.record.RecordParts.{RecordParts};
ghost use Rattle.std.specs.Prelude.{◌++◌, List};

/// Origin. For each live task exactly one entry issued, and not only sent again, a Launch with its
/// key. That entry delivered, with verdict ok, an ACCEPT of the task's framework that lists its
/// name, its agent and its resources, and used at least one offer and all that the ACCEPT named:
/// each was current just before, was made in an OFFERS event of an older entry to that framework on
/// that agent, and is used by no other entry. The tasks launched there sum to at most the offers'
/// sum. Tasks recorded at the opening are excepted. And no offer is used by two entries, whether
/// their ACCEPTs are good or not.
pub fn each_task_has_its_origin()
    ensures { (setup : Setup) (records : List RecordParts) (steps : List Marked)
        → GoodOpening setup.run records
        → Origin records (history setup records steps).state.world
        (moments setup records steps) }
{}

/// Each offer that was ever made is in an OFFERS event of the entry that made it, on its
/// framework's stream; and each use of offers is the delivery of an ACCEPT of their framework,
/// which names them, lists what is launched, and is taken while they are current.
pub fn marks_come_from_entries()
    ensures { (setup : Setup) (records : List RecordParts) (steps : List Marked)
        → Traced (moments setup records steps) (trail_after setup records steps) }
{}

/// Each task was launched by an entry that delivered an ACCEPT of its framework, out of offers that
/// older entries sent to that framework, or was in a record at the opening.
pub fn tasks_come_from_accepts()
    ensures { (setup : Setup) (records : List RecordParts) (steps : List Marked)
        → GoodOpening setup.run records
        → HaveSources records (history setup records steps).state.world
        (moments setup records steps) }
{}

/// Each Ack that was ever sent to an agent is of an update that the task's own framework
/// acknowledged by a call that was sent before, or that a record of the opening counts: also the
/// Ack that takes a task out of its record.
pub fn acks_come_from_owners()
    ensures { (setup : Setup) (records : List RecordParts) (steps : List Marked)
        → GoodOpening setup.run records
        → AcksAreOwners records
        (jobs_of (trail_after setup records steps) ++ recorded_jobs records)
        (history setup records steps).state.world (history setup records steps).state.posts }
{}
