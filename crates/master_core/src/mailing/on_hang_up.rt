//! A stream hangs up.

ghost use Rattle.std.specs.Prelude.{◌≡◌, OnOk};
ghost use Rattle.cluster_model.specs.Mails.{hung_up};
ghost use Rattle.master_state.specs.Works.{done, master_of, work_of};

use master_state::State;
use names_core::StreamId;
use std::alloc::AllocError;

/// The framework whose open stream this is loses its offers and has no open stream;
/// the stream is closed. Nothing happens where it is no framework's open stream.
pub fn hang_up(state: &mut State, stream: StreamId) -> Result<(), AllocError>
    ensures { OnOk result (work_of state.new
        ≡ done (hung_up (master_of state.old) stream) (work_of state.old)) }
{
    let Some(framework) = state.frameworks.subscriber_on(stream) else {
        return Ok(());
    };
    state.sides.stand_in_order();
    let _known = state.frameworks.as_slice();
    state.withdraw_of(framework);
    state.frameworks.close_stream(framework);
    state.close(stream)
}
