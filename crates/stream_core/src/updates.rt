//! The status updates of one task.

ghost use Rattle.std.specs.Prelude.{◌≡◌, ◌⊎◌, ◌+◌, [], true, false, Err, Some, None, IfErr, IfSome, IfNone, OnOk};
ghost use Rattle.std.specs.List.{list_any};
ghost use Rattle.names_core.specs.States.{is_terminal};
ghost use Rattle.stream_core.specs.Updates.{acknowledged_one, are_updates, front, ends_last, has_ended, is_done, is_front, is_full, pushed};

use crate::fault::TaskLinkFault;
use names_core::TaskState;
use std::alloc::{AllocError, Global};
use std::marker::Model;
use values::Plain;

/// The states of a task in the order in which they came, and how many of the first are
/// acknowledged. A terminal state is the last one; there are at most 4,096 states, the 4,096th a
/// terminal one.
#[derive(Debug)]
pub struct Updates {
    states: Vec<TaskState>,
    acknowledged: u32,
}

// By hand, so that who drops one goes through none of its parts.
impl Drop for Updates {
    fn drop(self) {
        let Updates {
            states: _,
            acknowledged: _,
        } = self;
    }
}

impl Model for Updates {
    ghost use Rattle.std.specs.Prelude.{◌≡◌, true};
    ghost use Rattle.stream_core.specs.Updates as specs;

    ghost Value = { specs.Updates };

    ghost view = { λ u. record { states = u.states.items; acknowledged = u.acknowledged } };

    ghost invariant = { λ u. specs.are_updates u.states.items u.acknowledged ≡ true };
}

fn has_terminal(states: &[TaskState]) -> bool
    ensures { result ≡ list_any is_terminal states.now }
{
    states.iter().any(|state| state.is_terminal())
}

/// Whether no state but the last is terminal.
fn ends_last(states: &[TaskState]) -> bool
    ensures { result ≡ ends_last states.now }
{
    if states.is_empty() {
        return true;
    }
    !has_terminal(&states[..states.len() - 1])
}

impl Updates {
    /// Of a task that was launched and has sent no update yet.
    pub fn new(alloc: Global) -> Updates
        ensures { result ≡ record { states = []; acknowledged = 0 } }
    {
        Updates {
            states: Vec::new(alloc),
            acknowledged: 0,
        }
    }

    /// The states, in the order in which they came.
    pub fn states(&self) -> &[TaskState]
        ensures states { result.now ≡ self.now.states }
        ensures valid { are_updates self.now.states self.now.acknowledged ≡ true }
    {
        self.states.as_slice()
    }

    /// How many of the first states are acknowledged.
    pub fn acknowledged(&self) -> u32
        ensures { result ≡ self.now.acknowledged }
    {
        self.acknowledged
    }
}

impl Updates {
    /// Whether one of the states is terminal.
    pub fn has_ended(&self) -> bool
        ensures { result ≡ has_ended self.now }
    {
        has_terminal(self.states.as_slice())
    }

    /// The first update that isn't acknowledged, with its number.
    pub fn front(&self) -> Option<(u32, TaskState)>
        ensures { result ≡ front self.now }
    {
        let state = self.states.get(self.acknowledged as usize)?;
        Some((self.acknowledged, *state))
    }

    /// Whether this is the number of the first update that isn't acknowledged.
    pub fn is_front(&self, k: u32) -> bool
        ensures { result ≡ is_front k self.now }
    {
        self.acknowledged == k && (k as usize) < self.states.len()
    }

    /// Whether the task has ended and all its updates are acknowledged.
    pub fn done(&self) -> bool
        ensures { result ≡ is_done self.now }
    {
        self.has_ended() && self.states.len() <= self.acknowledged as usize
    }

    /// Adds the next state. U2 where there is a terminal state, at any length; U3 where there is
    /// none, the new state isn't terminal and there are 4,095 states; U4 where memory ran out.
    pub fn push(&mut self, state: TaskState) -> Result<(), TaskLinkFault>
        ensures ok { OnOk result (self.new ≡ pushed state self.old) }
        ensures open { OnOk result (has_ended self.old ≡ false) }
        ensures closed { result ≡ Err TaskLinkFault.Closed → has_ended self.old ≡ true }
        ensures full { result ≡ Err TaskLinkFault.Full → (has_ended self.old ≡ false)
            × (is_terminal state ≡ false) × (is_full self.old ≡ true) }
        ensures err { IfErr result (λ e. (self.new ≡ self.old)
            × ((e ≡ TaskLinkFault.Closed) ⊎ (e ≡ TaskLinkFault.Full)
            ⊎ (e ≡ TaskLinkFault.OutOfMemory))) }
    {
        if self.has_ended() {
            return Err(TaskLinkFault::Closed);
        }
        if !state.is_terminal() && self.states.len() >= 4095 {
            return Err(TaskLinkFault::Full);
        }
        self.states.push(state)?;
        Ok(())
    }

    /// Acknowledges the first update that isn't acknowledged, if it has this number, else U1.
    pub fn acknowledge(&mut self, k: u32) -> Result<(), TaskLinkFault>
        ensures ok { OnOk result ((is_front k self.old ≡ true)
            × (self.new ≡ acknowledged_one self.old)) }
        ensures err { IfErr result (λ e. (e ≡ TaskLinkFault.NotFront)
            × (is_front k self.old ≡ false) × (self.new ≡ self.old)) }
    {
        if !self.is_front(k) {
            return Err(TaskLinkFault::NotFront);
        }
        self.acknowledged += 1;
        Ok(())
    }

    /// The value with these states and this count, where there is one.
    pub fn from_parts(states: Vec<TaskState>, acknowledged: u32) -> Option<Updates>
        ensures some { IfSome result
            (λ updates. (updates ≡ record { states = states.items; acknowledged = acknowledged })
            × (are_updates states.items acknowledged ≡ true)) }
        ensures none { IfNone result (are_updates states.items acknowledged ≡ false) }
    {
        let limit = if has_terminal(states.as_slice()) {
            4096
        } else {
            4095
        };
        if !ends_last(states.as_slice())
            || acknowledged as usize > states.len()
            || states.len() > limit
        {
            return None;
        }
        Some(Updates {
            states,
            acknowledged,
        })
    }
}

impl Clone for Updates {
    ghost is_clone = { λ one other. other ≡ one };

    fn clone(&self) -> Result<Updates, AllocError> {
        Ok(Updates {
            states: self.states.clone()?,
            acknowledged: self.acknowledged,
        })
    }
}

impl PartialEq for Updates {
    ghost use Rattle.values.specs.Deciding.{and_decides, per_from_decides};
    ghost use Rattle.std.proofs.Common.{rules};
    ghost use Rattle.std.specs.Prelude.{◌&&◌, ◌==◌};
    ghost use Rattle.std.specs.Cmp.{unsigned_Decides};
    ghost use Rattle.std.specs.Cmp.Lexicographic.{pointwise, pointwise_decides};

    ghost eq = { λ x y. pointwise ⟦<TaskState as PartialEq>⟧.eq x.states y.states
        && x.acknowledged == y.acknowledged };

    ghost laws = { per_from_decides (λ x y. let d = and_decides (pointwise_decides (Prim.search
        rules) x.states y.states) (unsigned_Decides x.acknowledged y.acknowledged) in
        ((λ h. let e = d.0 h in Prim.search rules), (λ e. d.1 (Prim.search rules)))) };

    fn eq(&self, other: &Updates) -> bool {
        self.states == other.states && self.acknowledged == other.acknowledged
    }
}

impl Plain for Updates {
    ghost use Rattle.values.specs.Deciding.{and_decides};
    ghost use Rattle.std.proofs.Common.{rules};
    ghost use Rattle.std.specs.Cmp.{unsigned_Decides};
    ghost use Rattle.std.specs.Cmp.Lexicographic.{pointwise_decides};

    ghost cloned = { λ _ _ same. same };

    ghost decided = { λ x y. let d = and_decides (pointwise_decides (Prim.search rules) x.states
        y.states) (unsigned_Decides x.acknowledged y.acknowledged) in (
          (λ h. let e = d.0 h in
              Prim.search rules),
          (λ e. d.1 (Prim.search rules)),
        ) };
}
