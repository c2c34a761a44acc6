//! What frameworks are allocated on an agent: its current offers, and what its booked tasks use that
//! haven't ended.

ghost use Rattle.std.specs.Prelude.{◌≡◌, ◌++◌, ◌∷◌, [], map, IfOk, IfSome, IsTrue, OnOk};
ghost use Rattle.cluster_model.specs.Sides.{unended};
ghost use Rattle.master_rounds.specs.Allocations.{job_allocation, offer_allocation, side_allocations, task_allocations};

use drf_pick::Allocation;
use master_agents::{AgentSide, OffersAt, TasksAt};
use messages::Booked;
use names_core::FrameworkId;
use quantity::Resources;
use std::alloc::{AllocError, Global};
use values::Plain;

/// What is left of allocations behind the first one, where that is this one.
fn behind<'a>(
    allocations: &'a [Allocation],
    framework: FrameworkId,
    resources: &Resources,
) -> Option<&'a [Allocation]>
    ensures { IfSome result (λ left. allocations.entry.now
        ≡ record { framework = framework; resources = resources.now } ∷ left.now) }
{
    let (first, left) = allocations.split_first()?;
    if first.framework == framework && first.resources.is_same(resources) {
        Some(left)
    } else {
        None
    }
}

/// What is left of allocations behind those of offers, where they begin with these.
fn behind_offers<'a>(
    allocations: &'a [Allocation],
    offers: OffersAt<'_>,
) -> Option<&'a [Allocation]>
    ensures { IfSome result (λ left. allocations.entry.now
        ≡ map offer_allocation offers.entry ++ left.now) }
{
    let mut left = allocations;
    for offer in offers {
        left = behind(left, offer.framework, &offer.resources)?;
    }
    Some(left)
}

/// What is left of allocations behind that of a task, which has none once it has ended.
fn behind_task<'a>(allocations: &'a [Allocation], task: &Booked) -> Option<&'a [Allocation]>
    ensures { IfSome result
        (λ left. allocations.entry.now ≡ task_allocations task.now ++ left.now) }
{
    if task.ended {
        return Some(allocations);
    }
    behind(allocations, task.job.framework, &task.job.resources)
}

/// Whether allocations are just those of tasks.
fn are_tasks(allocations: &[Allocation], tasks: TasksAt<'_>) -> bool
    ensures { IsTrue result → (allocations.now ≡ map job_allocation (unended tasks.entry)) }
{
    let mut left = allocations;
    for task in tasks {
        let Some(behind) = behind_task(left, task) else {
            return false;
        };
        left = behind;
    }
    left.is_empty()
}

/// Whether these allocations are still those of the agent.
pub(crate) fn are_found(allocations: &[Allocation], agent: &AgentSide<'_>) -> bool
    ensures { IsTrue result → (allocations.now ≡ side_allocations agent.now) }
{
    match behind_offers(allocations, agent.offers()) {
        Some(left) => are_tasks(left, agent.tasks()),
        None => false,
    }
}

fn push(
    allocations: &mut Vec<Allocation>,
    framework: FrameworkId,
    resources: &Resources,
) -> Result<(), AllocError>
    ensures { OnOk result (allocations.new.items ≡ allocations.old.items
        ++ record { framework = framework; resources = resources.now } ∷ []) }
{
    let resources = resources.copy()?;
    allocations.push(Allocation {
        framework,
        resources,
    })?;
    Ok(())
}

fn push_offers(allocations: &mut Vec<Allocation>, offers: OffersAt<'_>) -> Result<(), AllocError>
    ensures { OnOk result (allocations.new.items ≡ allocations.old.items
        ++ map offer_allocation offers.entry) }
{
    for offer in offers {
        push(allocations, offer.framework, &offer.resources)?;
    }
    Ok(())
}

fn push_tasks(allocations: &mut Vec<Allocation>, tasks: TasksAt<'_>) -> Result<(), AllocError>
    ensures { OnOk result (allocations.new.items ≡ allocations.old.items
        ++ map job_allocation (unended tasks.entry)) }
{
    for task in tasks {
        if !task.ended {
            push(allocations, task.job.framework, &task.job.resources)?;
        }
    }
    Ok(())
}

/// What frameworks are allocated on an agent.
pub(crate) fn found_on(alloc: Global, agent: &AgentSide<'_>) -> Result<Vec<Allocation>, AllocError>
    ensures { IfOk result (λ allocations. allocations.items ≡ side_allocations agent.now) }
{
    let mut allocations = Vec::new(alloc);
    push_offers(&mut allocations, agent.offers())?;
    push_tasks(&mut allocations, agent.tasks())?;
    Ok(allocations)
}
