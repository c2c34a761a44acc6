//! The shares of a round of offers,
//! and which framework stands least by them (DRF paper, section 4).

mod candidates;
mod fill;
mod found;
mod laws;
mod owned;
mod pick;

pub use candidates::{Candidate, candidates_of};
pub use fill::shares_of;
pub use laws::{goes_to_picked, picks_alike};
pub use pick::picked;
