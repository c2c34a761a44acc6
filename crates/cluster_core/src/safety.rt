//! Every legal story is safe.

ghost use Rattle.cluster_core.specs.Safety.{Safe};
ghost use Rattle.cluster_core.specs.Stories.{IsLegal, Story};

use cluster_safe::{
    acknowledged_by_the_owner, acknowledged_updates_only_grow, acknowledgements_are_prefixes,
    acks_come_from_owners, agents_count_what_owners_acknowledged, agents_have_room,
    all_commands_are_issued_in_order, each_task_has_its_origin, marks_come_from_entries,
    offers_and_tasks_fit, tasks_have_their_origin,
};

/// Whatever calls, deliveries, losses, repeats, reorderings and restarts a story has, it is safe.
pub fn stories_are_safe()
    ensures { (s : Story) → IsLegal s → Safe s }
{
    acknowledged_by_the_owner();
    acknowledged_updates_only_grow();
    acknowledgements_are_prefixes();
    acks_come_from_owners();
    agents_count_what_owners_acknowledged();
    agents_have_room();
    all_commands_are_issued_in_order();
    each_task_has_its_origin();
    marks_come_from_entries();
    offers_and_tasks_fit();
    tasks_have_their_origin();
}
