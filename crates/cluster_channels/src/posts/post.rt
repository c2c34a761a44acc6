//! What can be delivered.

ghost use Rattle.std.specs.Prelude.{◌≡◌, ◌<◌, ◌≤◌, ℕ, suc, Bool, true, Option, IfSome, OnOk};
ghost use Rattle.cluster_channels.specs.declared.posts.direction.Direction.{Direction as Way};

use crate::posts::direction::Direction;
use std::alloc::{AllocError, Global};

/// Of all that was sent, by its number from 1, what can be delivered now.
pub trait Post {
    /// What is known of all that was sent, and of what was delivered.
    ghost Known: { Type 0 };

    ghost known: { Self → Self.Known };

    /// What is known before anything was sent.
    ghost nothing: { Self.Known };

    /// What is known once one more was sent, in this direction.
    ghost with_put: { Self.Known → Way → Self.Known };

    /// What is known once this number was delivered.
    ghost with_given: { Self.Known → ℕ → Self.Known };

    /// How many were sent.
    ghost count: { Self.Known → ℕ };

    /// Whether a number can be delivered now.
    ghost gives: { Self.Known → ℕ → Bool };

    /// The direction in which a number was sent; None where the post doesn't keep it.
    ghost direction_at: { Self.Known → ℕ → Option Way };

    /// How many more can be added without memory.
    ghost room: { Self → ℕ };

    /// Nothing was sent yet.
    fn empty() -> Self
        ensures known { known result ≡ nothing }
        ensures count { count nothing ≡ 0 };

    /// Makes room for so many more. It is refused where memory is, or where the numbers are spent.
    fn reserve(&mut self, alloc: Global, more: usize) -> Result<(), AllocError>
        ensures room { OnOk result (more ≤ room self.new) }
        ensures known { known self.new ≡ known self.old };

    /// Adds one more, which has the next number. Of those before the same can be delivered.
    fn put(&mut self, direction: Direction)
        requires { 0 < room self.old }
        ensures known { known self.new ≡ with_put (known self.old) direction }
        ensures count { count (known self.new) ≡ suc (count (known self.old)) }
        ensures room { room self.old ≤ suc (room self.new) }
        ensures gives { (n : ℕ) → n ≤ count (known self.old)
            → gives (known self.new) n ≡ gives (known self.old) n }
        ensures newest { IfSome (direction_at (known self.new) (suc (count (known self.old))))
            (λ kept. kept ≡ direction) }
        ensures directions { (n : ℕ) → n ≤ count (known self.old)
            → direction_at (known self.new) n ≡ direction_at (known self.old) n };

    /// Whether this number can be delivered.
    fn can_give(&self, n: u64) -> bool
        ensures { result ≡ gives (known self.now) n };

    /// Records that this number was delivered.
    fn given(&mut self, n: u64)
        requires { gives (known self.old) n ≡ true }
        ensures known { known self.new ≡ with_given (known self.old) n }
        ensures count { count (known self.new) ≡ count (known self.old) }
        ensures room { room self.new ≡ room self.old }
        ensures directions { (n : ℕ)
            → direction_at (known self.new) n ≡ direction_at (known self.old) n };

    /// What can be delivered was sent.
    ghost was_put: { (k : Self.Known) (n : ℕ) → gives k n ≡ true → (0 < n) × (n ≤ count k) };
}
