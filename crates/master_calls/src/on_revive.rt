//! REVIVE and SUPPRESS.

ghost use Rattle.std.specs.Prelude.{◌≡◌};
ghost use Rattle.messages.specs.declared.call.Call.TheVariants as calls;
ghost use Rattle.cluster_model.specs.Calls.{call_effect};
ghost use Rattle.master_state.specs.Works.{Gave, master_of};

use master_state::{MasterFault, State};
use names_core::{FrameworkId, StreamId};
use std::alloc::Global;

/// The framework is offered resources again, and what it refused too (Mesos scheduler HTTP API,
/// REVIVE). Refused as `State::admit` is.
pub fn revive(
    state: &mut State,
    alloc: Global,
    given: Option<StreamId>,
    framework: FrameworkId,
) -> Result<(), MasterFault>
    ensures { Gave result state.old state.new
        (call_effect (master_of state.old) given (calls.Revive framework)) }
{
    let _stream = match state.admit(given, framework) {
        Ok(stream) => stream,
        Err(refusal) => return Err(MasterFault::Refused(refusal)),
    };
    let _known = state.frameworks.as_slice();
    state.frameworks.revive(alloc, framework);
    Ok(())
}

/// The framework asks for no more offers (Mesos scheduler HTTP API, SUPPRESS). Refused as
/// `State::admit` is.
pub fn suppress(
    state: &mut State,
    given: Option<StreamId>,
    framework: FrameworkId,
) -> Result<(), MasterFault>
    ensures { Gave result state.old state.new
        (call_effect (master_of state.old) given (calls.Suppress framework)) }
{
    let _stream = match state.admit(given, framework) {
        Ok(stream) => stream,
        Err(refusal) => return Err(MasterFault::Refused(refusal)),
    };
    let _known = state.frameworks.as_slice();
    state.frameworks.suppress(framework);
    Ok(())
}
