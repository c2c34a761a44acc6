//! Samples of the safety law: short runs of the model at one agent, of which the checker computes
//! that the law holds. The step at issue has a definition of its own, which is the model's; each
//! wrong body of `must-fail` replaces such a definition, and then the law is false at the end of
//! the run.

ghost use Rattle.cluster_model.specs.Channels.{AllFit, open_world};
ghost use Rattle.cluster_model.specs.Openings.{GoodOpening, recorded_jobs};
ghost use Rattle.cluster_safe.specs.Acknowledged.{AcknowledgedByOwner};
ghost use Rattle.cluster_safe.specs.AcknowledgedAt.{OwnersAcknowledged, acknowledged_at};
ghost use Rattle.cluster_safe.specs.Issued.{AllIssued};
ghost use Rattle.cluster_safe.specs.Honest.{IsBeginningOf, acknowledged_by};
ghost use Rattle.cluster_safe.specs.Updates.{updates_of};
ghost use Rattle.test_model.specs.Short.{id};
ghost use Rattle.test_model.specs.Acknowledging.{acknowledgements, after_foreign, foreign_calls};
ghost use Rattle.test_model.specs.Agents.{cpus, reporting};
ghost use Rattle.test_model.specs.Booking.{after_accept, after_closed, after_kill, after_offer, after_repeat, after_teardown, after_update};
ghost use Rattle.test_model.specs.Growing.{after_draft, after_fall, after_report, after_save, offers_in};
ghost use Rattle.test_model.specs.Histories.{is_offered, launches, reports, updates, world_after};
ghost use Rattle.test_model.specs.Issuing.{after_second};
ghost use Rattle.test_model.specs.Taking.{acknowledged_then, before_acks, both_are_acked, first_call, first_is_acked, framework_ends, tasks_after_all};
ghost use Rattle.test_model.specs.Worlds.{launched, launched_twice, no_task, offered, running, updated, with_task, with_two_launches, with_updates};
ghost use Rattle.std.specs.Prelude.{◌≡◌, ◌++◌, ◌∷◌, [], map};

/// The worlds in which the samples begin are those of histories, over good openings.
pub fn worlds_are_of_histories()
    ensures running { world_after 2 with_task reports ≡ running }
    ensures launched_twice { world_after 2 with_two_launches reports ≡ launched_twice }
    ensures offered { world_after 1 no_task (reports ++ is_offered) ≡ offered }
    ensures launched { world_after 1 no_task (reports ++ is_offered ++ launches) ≡ launched }
    ensures updated { world_after 2 with_updates (reports ++ updates) ≡ updated }
    ensures of_tasks { GoodOpening 2 with_task × GoodOpening 2 with_two_launches
        × GoodOpening 2 with_updates }
    ensures of_none { GoodOpening 1 no_task }
{}

/// A task that is to be killed keeps its resources until it has ended.
pub fn kills_free_nothing()
    ensures { AllFit after_kill }
{}

/// The tasks of a framework that is torn down keep their resources
/// until their agent has ended them.
pub fn teardowns_free_nothing()
    ensures { AllFit after_teardown }
{}

/// The end of an old launch frees nothing of a new one, whose task has the same name.
pub fn old_ends_free_no_new_task()
    ensures { AllFit after_update }
{}

/// What is offered to one framework isn't offered to another.
pub fn a_part_is_offered_once()
    ensures { AllFit after_offer }
{}

/// An offer that was accepted isn't current beside the tasks that were launched out of it.
pub fn accepted_offers_are_gone()
    ensures { AllFit after_accept }
{}

/// The Report that opened a session, received again in it, replaces no task that was launched
/// since.
pub fn repeated_reports_replace_nothing()
    ensures { AllFit after_repeat }
{}

/// The Report of a session that was closed opens it no more.
pub fn closed_sessions_stay_closed()
    ensures { AllFit after_closed }
{}

/// An agent doesn't return with less than it had, of which something may be offered.
pub fn totals_do_not_fall()
    ensures { AllFit after_fall }
{}

/// The books have what the agent last reported, and no more:
/// as a start with more is prepared and saved, nothing of that is offered yet.
pub fn books_have_what_is_reported()
    ensures draft { AllFit after_draft }
    ensures save { AllFit after_save }
    ensures report { AllFit after_report }
    ensures offered { map offers_in after_draft.channels ≡ [] ∷ []
        × map offers_in after_save.channels ≡ [] ∷ []
        × map offers_in after_report.channels ≡ cpus 8 ∷ [] }
{}

/// A framework that acknowledges each update that is sent has acknowledged
/// a beginning of its task's updates.
#[tactic(auto, using(crate::proofs::Gapless::beginning))]
pub fn updates_are_sent_in_turn()
    ensures { IsBeginningOf (updates_of (id 1 1) reporting (open_world 2 with_updates))
        (acknowledged_by with_updates (id 1 1) (id 1 1) acknowledgements) }
{}

/// An ACKNOWLEDGE of a framework that isn't the task's acknowledges nothing.
pub fn only_owners_acknowledge()
    ensures { AcknowledgedByOwner with_updates after_foreign foreign_calls }
{}

/// A command that is issued twice is two of all that were ever issued in the session, with two
/// numbers; the count of those known to be applied is no more than were issued.
pub fn commands_are_counted()
    ensures { AllIssued after_second }
{}

/// What is acknowledged at an agent stays so once the task has left its record: all updates where
/// the Ack of the last one took it out, and those that were acknowledged where its framework ended.
pub fn acknowledgements_outlive_tasks()
    ensures first { acknowledged_at (id 1 1) first_is_acked before_acks ≡ 1 }
    ensures both { acknowledged_at (id 1 1) both_are_acked before_acks ≡ 2 }
    ensures ended { acknowledged_at (id 1 1) framework_ends before_acks ≡ 1 }
    ensures gone { tasks_after_all both_are_acked ≡ [] ∷ []
        × tasks_after_all framework_ends ≡ [] ∷ [] }
{}

/// The Ack of one update takes no task out that has another, which nobody acknowledged.
pub fn acks_take_no_more_than_named()
    ensures { OwnersAcknowledged with_updates (recorded_jobs with_updates) acknowledged_then
        first_call }
{}
