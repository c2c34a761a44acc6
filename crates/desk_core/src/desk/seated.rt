//! What is left of a closed desk.

ghost use Rattle.std.specs.Prelude.{◌≡◌, ◌+◌, length};
ghost use Rattle.desk_core.specs.Seats.{SeatedState};

use crate::recorded::Recorded;
use std::marker::Model;

/// What a desk recorded, and the seat of each entry since the opening.
#[derive(Drop)]
pub struct SeatedHistory<C: Recorded> {
    pub(super) recorded: C,
    pub(super) seats: Vec<u32>,
}

impl<C: Recorded> Model for SeatedHistory<C> {
    ghost use Rattle.std.specs.Prelude.{◌≡◌, length};
    ghost use Rattle.desk_core.specs.Seats.{SeatedState};

    ghost Value = { SeatedState C };

    ghost view = { λ h. record { recorded = h.recorded; seats = h.seats.items } };

    ghost invariant = { λ h. length h.seats.items ≡ length (C.history h.recorded) };
}

impl<C: Recorded> SeatedHistory<C> {
    pub fn recorded(&self) -> &C
        ensures { result.now ≡ self.now.recorded }
    {
        &self.recorded
    }

    /// The seat of each entry since the opening.
    pub fn seats(&self) -> &[u32]
        ensures seats { result.now ≡ self.now.seats }
        ensures seated { length self.now.seats ≡ length (C.history self.now.recorded) }
    {
        self.seats.as_slice()
    }

    /// How many entries there are, the opening counted.
    pub fn len(&self) -> u32
        ensures { result ≡ length (C.history self.now.recorded) + 1 }
    {
        self.recorded.len() + 1
    }

    pub fn is_sound(&self)
        ensures { C.sound self.now.recorded }
    {
        self.recorded.is_sound();
    }
}
