//! The weights of roles: how much of the whole each role's frameworks are to get,
//! beside the others (DRF paper, section 4.3).

mod weights;

pub use weights::Weights;
