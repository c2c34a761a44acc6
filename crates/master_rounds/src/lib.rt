//! Rounds of offers (DRF paper, section 4; Mesos paper, section 3.1).
#![tactic(auto)]

mod news;
mod round;
mod shares;
mod visit;

pub use round::allocate;
pub use shares::{Candidate, candidates_of, goes_to_picked, picked, picks_alike, shares_of};
