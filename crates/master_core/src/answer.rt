//! The answer to a call.

ghost use Rattle.std.specs.Prelude.{◌≡◌};
ghost use Rattle.cluster_model.specs.Calls.{call_effect};
ghost use Rattle.cluster_model.specs.Fits.{SidesFit};
ghost use Rattle.master_state.specs.Works.{Gave, master_of, run_of};

use master_calls::{
    accept, acknowledge, decline, kill, reconcile, revive, subscribe, suppress, teardown,
};
use master_state::{MasterFault, State};
use messages::Call;
use names_core::StreamId;
use std::alloc::Global;

/// Answers a call that came with this stream, or with none.
pub fn answer(
    state: &mut State,
    alloc: Global,
    given: Option<StreamId>,
    call: Call,
) -> Result<(), MasterFault>
    requires { SidesFit (run_of state.old) state.old.sides }
    ensures { Gave result state.old state.new (call_effect (master_of state.old) given call) }
{
    match call {
        Call::Subscribe { framework, role } => subscribe(state, alloc, given, framework, role),
        Call::Teardown { framework } => teardown(state, alloc, given, framework),
        Call::Accept {
            framework,
            offers,
            tasks,
            refuse_seconds,
        } => accept(
            state,
            alloc,
            given,
            framework,
            offers.as_slice(),
            tasks.as_slice(),
            refuse_seconds,
        ),
        Call::Decline {
            framework,
            offers,
            refuse_seconds,
        } => decline(
            state,
            alloc,
            given,
            framework,
            offers.as_slice(),
            refuse_seconds,
        ),
        Call::Revive { framework } => revive(state, alloc, given, framework),
        Call::Suppress { framework } => suppress(state, given, framework),
        Call::Kill {
            framework,
            task,
            agent,
        } => kill(state, alloc, given, framework, task, agent),
        Call::Acknowledge {
            framework,
            agent,
            task,
            update,
        } => acknowledge(state, alloc, given, framework, &agent, &task, update),
        Call::Reconcile { framework, tasks } => reconcile(
            state,
            alloc,
            given,
            framework,
            tasks.as_slice(),
        ),
    }
}
