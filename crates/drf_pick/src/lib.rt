//! Which framework stands least, by dominant shares (DRF paper, section 4).
#![tactic(auto)]

mod client_share;
mod counted;
mod fractions;
mod holder;
mod holdings;
mod laws;
mod least;
mod ranks;
mod roles;
mod shares;

pub use client_share::{ClientPlace, ClientShare};
pub use counted::{Allocation, CountedShares, Found};
pub use drf_shares::{SharesFault, Sum};
pub use holder::{Client, Holder, RoleSum};
pub use laws::{amounts_decide, pick_is_one, picks_least, standing_is_order, test_is_relation};
pub use least::{comes_before, pick};
pub use shares::Shares;
