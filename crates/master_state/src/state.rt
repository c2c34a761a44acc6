//! What the master knows.

ghost use Rattle.std.specs.Prelude.{◌≡◌, IfOk};
ghost use Rattle.master_state.specs.States.{cleared, fresh, no_outs};

use crate::registry::Frameworks;
use master_agents::{ConfiguredAgents, Sides};
use messages::{StreamEvent, ToAgent};
use names_core::{FrameworkId, Run, StreamId};
use std::alloc::{AllocError, Global};
use std::mem;
use values::Listed;

/// The outputs of a step.
#[derive(Drop)]
pub struct Outs {
    /// In the order made.
    pub events: Listed<StreamEvent>,
    pub opened: Listed<StreamId>,
    pub closed: Listed<StreamId>,
    /// In the order made.
    pub mails: Listed<ToAgent>,
}

/// What the master knows in its run, and the outputs so far of the step that it is in.
#[derive(Drop)]
pub struct State {
    pub run: Run,
    /// The frameworks that were torn down in this run, in order.
    pub torn: Listed<FrameworkId>,
    /// The number of the last launch key that was assigned in this run, 0 for none.
    pub last_key: u32,
    /// The number of the next offer, from 1; above 4,294,967,295 the offers are spent.
    pub next_offer: u64,
    pub sides: Sides,
    /// The moment of the last tick, in seconds.
    pub moment: u32,
    pub frameworks: Frameworks,
    /// The number of the last framework id that was assigned in this run, 0 for none.
    pub last_framework: u32,
    /// The number of the last stream that was opened in this run, 0 for none.
    pub last_stream: u32,
    pub outs: Outs,
}

impl Outs {
    /// Nothing. It takes no memory.
    pub fn new(alloc: Global) -> Outs
        ensures { result ≡ no_outs }
    {
        Outs {
            events: Listed::new(alloc),
            opened: Listed::new(alloc),
            closed: Listed::new(alloc),
            mails: Listed::new(alloc),
        }
    }
}

impl State {
    /// The state of a master that begins a run: no agent has returned, and no framework is known.
    pub fn new(alloc: Global, run: Run, config: &ConfiguredAgents) -> Result<State, AllocError>
        ensures { IfOk result (λ state. state ≡ fresh run config.now) }
    {
        Ok(State {
            run,
            torn: Listed::new(alloc),
            last_key: 0,
            next_offer: 1,
            sides: Sides::of(alloc, config)?,
            moment: 0,
            frameworks: Frameworks::new(alloc),
            last_framework: 0,
            last_stream: 0,
            outs: Outs::new(alloc),
        })
    }

    /// Returns the outputs so far, and keeps none. It takes no memory.
    pub fn take_outs(&mut self, alloc: Global) -> Outs
        ensures outs { result ≡ self.old.outs }
        ensures state { self.new ≡ cleared self.old }
    {
        mem::replace(&mut self.outs, Outs::new(alloc))
    }
}
