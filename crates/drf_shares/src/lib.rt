//! Sums of what frameworks and agents have by name,
//! and how two compare by dominant shares of a total (DRF paper, section 4).
#![tactic(auto)]

mod fault;
mod share;
mod sum;

pub use fault::SharesFault;
pub use share::Fraction;
pub use sum::Sum;
