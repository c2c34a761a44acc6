//! The model of a cluster's parts: what master and agents do, and the channels between them, said
//! from all that was ever sent. It has no code: contracts of the crates above cite its definitions.
#![tactic(auto)]

mod fits;

ghost use Rattle.cluster_model.specs.Channels.{Happening, World, after_all};
ghost use Rattle.std.specs.Prelude.{◌≡◌, ◌++◌, List};

pub use fits::{
    mails_without_tasks_fit, moves_keep_fits, new_sides_fit, receiving_keeps_fits, steps_keep_fits,
};

/// What happens after two lists of happenings is what happens after the one and then the other.
pub fn happenings_follow_one_another()
    ensures { (hs more : List Happening) (w : World)
        → after_all (hs ++ more) w ≡ after_all more (after_all hs w) }
{}
