//! What stands at a place.

/// An item, and the place of the list that it is in.
#[derive(Drop)]
pub struct Located<T> {
    pub place: usize,
    pub item: T,
}
