//! Queues of what was sent.

ghost use Rattle.std.specs.Prelude.{◌≡◌, ◌<◌, ◌≤◌, ℕ, suc, true, false, length, IfNone, IfSome, Some};
ghost use Rattle.cluster_channels.specs.Queueing.{IsFirstWaiting, Item, direction_in, hands_out, nothing_waits, with_given, with_put};

use crate::posts::direction::Direction;
use crate::posts::post::Post;
use crate::posts::stores::Stores;
use std::alloc::{AllocError, Global};
use std::marker::Model;

/// Each call is delivered once, and the mails to an agent, and those from it,
/// once and in their order.
#[derive(Drop)]
pub struct Queues {
    /// None before the first room is made.
    stores: Option<Stores>,
}

impl Model for Queues {
    ghost use Rattle.std.specs.Prelude.{unwrap_or};
    ghost use Rattle.cluster_channels.specs.Queueing.{Post as Kept, nothing_put};

    ghost Value = { Kept };

    ghost view = { λ q. unwrap_or q.stores nothing_put };
}

impl Post for Queues {
    ghost use Rattle.std.specs.Prelude.{List, [], length};
    ghost use Rattle.cluster_channels.specs.Queueing.{direction_in, hands_out, with_given, with_put};
    ghost use Rattle.cluster_channels.specs.Numbers.{handed_out_was_put};

    ghost Known = { List Item };

    ghost known = { λ p. p.items };

    ghost nothing = { [] };

    ghost with_put = { λ items d. with_put items d };

    ghost with_given = { λ items n. with_given items n };

    ghost count = { λ items. length items };

    ghost gives = { λ items n. hands_out items n };

    ghost direction_at = { λ items n. direction_in items n };

    ghost room = { λ p. p.room };

    ghost was_put = { λ items n e. handed_out_was_put items n e };

    fn empty() -> Queues {
        Queues { stores: None }
    }

    fn reserve(&mut self, alloc: Global, more: usize) -> Result<(), AllocError> {
        if let Some(stores) = &mut self.stores {
            return stores.reserve(more);
        }
        let mut stores = Stores::new(alloc);
        stores.reserve(more)?;
        self.stores = Some(stores);
        Ok(())
    }

    // What is added waits after all that was sent before,
    fn put(&mut self, direction: Direction)
        requires { 0 < self.old.room }
        ensures items { self.new.items ≡ with_put self.old.items direction }
        ensures room { self.old.room ≤ suc self.new.room }
        // leaves what can be delivered of that as it was,
        ensures older { (n : ℕ) → n ≤ length self.old.items
            → hands_out self.new.items n ≡ hands_out self.old.items n }
        // and can be delivered at once if nothing in its queue waits.
        ensures newest { hands_out self.new.items (suc (length self.old.items))
            ≡ nothing_waits direction self.old.items }
        // Its direction is kept, and so are those before.
        ensures direction { direction_in self.new.items (suc (length self.old.items))
            ≡ Some direction }
        ensures directions { (n : ℕ) → n ≤ length self.old.items
            → direction_in self.new.items n ≡ direction_in self.old.items n }
    {
        if let Some(stores) = &mut self.stores {
            stores.put(direction);
        }
    }

    fn can_give(&self, n: u64) -> bool {
        match &self.stores {
            Some(stores) => stores.can_give(n),
            None => false,
        }
    }

    // What was delivered is marked, and isn't delivered again.
    fn given(&mut self, n: u64)
        requires { hands_out self.old.items n ≡ true }
        ensures count { length self.new.items ≡ length self.old.items }
        ensures items { self.new.items ≡ with_given self.old.items n }
        ensures room { self.new.room ≡ self.old.room }
        ensures once { hands_out self.new.items n ≡ false }
        ensures directions { (m : ℕ) → direction_in self.new.items m
            ≡ direction_in self.old.items m }
    {
        if let Some(stores) = &mut self.stores {
            stores.given(n);
        }
    }
}

impl Queues {
    /// The number of the first that waits in the queue of a direction,
    /// None where nothing waits there; calls wait in none.
    pub fn first_waiting(&self, direction: Direction) -> Option<u64>
        ensures first { IfSome result (IsFirstWaiting direction self.now.items) }
        ensures none { IfNone result (nothing_waits direction self.now.items ≡ true) }
    {
        match &self.stores {
            Some(stores) => stores.first_waiting(direction),
            None => None,
        }
    }
}
