//! The streams that are kept are those of the model.

ghost use Rattle.std.specs.Prelude.{◌≡◌, ◌++◌, List, map, option_map, Some, Ok};
ghost use Rattle.cluster_laws.specs.Runs.{AreRising, ids_of};
ghost use Rattle.cluster_model.specs.Clusters.{Cluster, Stream};
ghost use Rattle.messages.specs.declared.steps.step.Step.TheVariants.{Take};
ghost use Rattle.cluster_model.specs.Events.{Event, StreamEvent};
ghost use Rattle.cluster_model.specs.Steps.{Setup, Done, Marked, answer, history, step_marked, stream_at, streams_after, takes_event, takes_one};
ghost use Rattle.messages.specs.declared.record.RecordParts.{RecordParts};
ghost use Rattle.names_core.specs.Ids.{Numbered};
ghost use Rattle.cluster_channels.specs.Kept.{AreWithin, kept_stream, kept_streams, untaken};
ghost use Rattle.cluster_channels.specs.Streams.{received, kept_ids, next_on, stream_kept, taken};

/// `receive` and `take` change the kept streams as a step of the model changes its own.
pub fn kept_streams_follow()
    ensures receives { (streams : List Stream) (opens : List Numbered)
        (sent_events : List StreamEvent) → AreWithin streams
        → kept_streams (streams_after streams opens sent_events)
        ≡ received opens sent_events (kept_streams streams) }
    ensures takes { (streams : List Stream) (id : Numbered)
        → kept_streams (map (takes_one id) streams) ≡ taken id (kept_streams streams) }
    ensures ids { (streams : List Stream) (opens : List Numbered) (sent_events : List StreamEvent)
        → ids_of (streams_after streams opens sent_events)
        ≡ kept_ids (kept_streams streams) ++ opens }
{}

/// A stream of the model is found among those that are kept,
/// and the first event that waits on it is the one that a Take returns.
pub fn kept_streams_are_found()
    ensures streams { (c : Cluster) (id : Numbered)
        → stream_kept id (kept_streams c.streams) ≡ option_map kept_stream (stream_at c id) }
    ensures next { (c : Cluster) (id : Numbered)
        → next_on id (kept_streams c.streams) ≡ untaken c id }
    ensures answers { (c : Cluster) (id : Numbered)
        → answer c (Take id) ≡ takes_event c id (untaken c id) }
{}

/// Never is more taken than there is.
pub fn no_more_is_taken()
    ensures receives { (streams : List Stream) (opens : List Numbered)
        (sent_events : List StreamEvent) → AreWithin streams
        → AreWithin (streams_after streams opens sent_events) }
    ensures takes { (c : Cluster) (id : Numbered) (event : Event) → AreRising (ids_of c.streams)
        → AreWithin c.streams → untaken c id ≡ Some event
        → AreWithin (map (takes_one id) c.streams) }
    ensures histories { (setup : Setup) (records : List RecordParts) (steps : List Marked) →
        AreWithin (history setup records steps).state.streams }
{}

/// The ids of the streams that a step opens are in order, and after those of the streams before.
pub fn opened_streams_rise()
    ensures { (setup : Setup) (records : List RecordParts) (steps : List Marked) (s : Marked)
        (d : Done) (opens : List Numbered) (sent_events : List StreamEvent)
        → step_marked (history setup records steps).state s ≡ Ok d
        → d.after.streams
        ≡ streams_after (history setup records steps).state.streams opens sent_events
        → AreRising (kept_ids (kept_streams (history setup records steps).state.streams) ++ opens) }
{}
