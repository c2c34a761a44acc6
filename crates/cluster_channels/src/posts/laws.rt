//! What queues deliver over time.

ghost use Rattle.std.specs.Prelude.{◌≡◌, true, false, List, ℕ};
ghost use Rattle.cluster_channels.specs.Queueing.{AreBeforeGiven, Item, WasGiven, hands_out, with_given, with_put};
ghost use Rattle.cluster_channels.specs.declared.posts.direction.Direction.{Direction};

/// A number that queues delivered isn't delivered again, whatever is sent and delivered since; and
/// when a mail is delivered, all mails that were sent before it in its queue were.
pub fn queues_hand_out_once()
    ensures given { (items : List Item) (n : ℕ) → hands_out items n ≡ true
        → WasGiven (with_given items n) n }
    ensures for_ever { (items : List Item) (n m : ℕ) → WasGiven items n
        → WasGiven (with_given items m) n }
    ensures behind { (items : List Item) (n : ℕ) (d : Direction) → WasGiven items n
        → WasGiven (with_put items d) n }
    ensures once { (items : List Item) (n : ℕ) → WasGiven items n → hands_out items n ≡ false }
    ensures in_order { (items : List Item) (n : ℕ) → hands_out items n ≡ true
        → AreBeforeGiven items n }
{}
