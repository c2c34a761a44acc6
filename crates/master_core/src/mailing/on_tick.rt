//! Time passes.

ghost use Rattle.std.specs.Prelude.{◌≡◌, OnOk};
ghost use Rattle.cluster_model.specs.Mails.{ticked};
ghost use Rattle.master_state.specs.Works.{done, master_of, work_of};

use crate::mailing::sending;
use master_state::State;
use std::alloc::{AllocError, Global};

/// The moment is now, in seconds. HEARTBEAT goes on each open stream whose last one, or SUBSCRIBED,
/// is 15 seconds ago or more, by framework; then, by agent, a Hello where no session is open, else
/// the oldest command that isn't known to be applied, again.
pub fn tick(state: &mut State, alloc: Global, now: u32) -> Result<(), AllocError>
    ensures { OnOk result (work_of state.new
        ≡ done (ticked (master_of state.old) now) (work_of state.old)) }
{
    state.sides.stand_in_order();
    sending::send_heartbeats(now, state.frameworks.as_slice(), &mut state.outs.events)?;
    state.frameworks.beat(now);
    state.moment = now;
    state
        .sides
        .send_again(alloc, state.run, &mut state.outs.mails)
}
