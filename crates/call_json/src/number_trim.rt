//! Whole numbers that a JSON text writes with a point, as in `1.0`, become whole numbers.

mod number;
mod piece;
mod text;

pub use text::{one_cut, trim};
