//! What was ever sent.

ghost use Rattle.std.specs.Prelude.{◌≡◌, ◌-◌, ◌≤◌, ℕ, suc, None};
ghost use Rattle.cluster_channels.specs.Numbers.{is_number, numbers_are_from_one};

use crate::posts::direction::Direction;
use crate::posts::post::Post;
use std::alloc::{AllocError, Global};

/// All that was ever sent can be delivered, in any order and any number of times.
#[derive(Drop)]
pub struct EverSent {
    count: u64,
}

impl Post for EverSent {
    ghost Known = { ℕ };

    ghost known = { λ p. p.count };

    ghost nothing = { 0 };

    ghost with_put = { λ count d. suc count };

    ghost with_given = { λ count n. count };

    ghost count = { λ count. count };

    ghost gives = { λ count n. is_number count n };

    ghost direction_at = { λ count n. None };

    ghost room = { λ p. 18446744073709551615 - p.count };

    ghost was_put = { λ count n e. numbers_are_from_one count n e };

    fn empty() -> EverSent {
        EverSent { count: 0 }
    }

    fn reserve(&mut self, _alloc: Global, more: usize) -> Result<(), AllocError> {
        if u64::MAX - self.count < more as u64 {
            return Err(AllocError);
        }
        Ok(())
    }

    fn put(&mut self, _direction: Direction) {
        self.count += 1;
    }

    fn can_give(&self, n: u64) -> bool {
        0 < n && n <= self.count
    }

    fn given(&mut self, _n: u64) {}
}
