//! What follows a step.

ghost use Rattle.std.specs.Prelude.{◌≡◌, Some};
ghost use Rattle.master_core.specs.Steps.{Settled};

use master_state::{MasterFault, Outs, State};
use std::alloc::Global;
use std::mem;

/// Returns the outputs of a step. A master whose step wanted memory is down: it has no state.
pub fn settle(
    state: &mut Option<State>,
    alloc: Global,
    done: Result<(), MasterFault>,
) -> Result<Outs, MasterFault>
    ensures { Settled done state.old state.new result }
{
    match done {
        Ok(()) => match state {
            Some(state) => Ok(state.take_outs(alloc)),
            None => Err(MasterFault::OutOfMemory),
        },
        Err(MasterFault::OutOfMemory) => {
            let _fallen = mem::replace(state, None);
            Err(MasterFault::OutOfMemory)
        }
        Err(MasterFault::Refused(refusal)) => Err(MasterFault::Refused(refusal)),
    }
}
