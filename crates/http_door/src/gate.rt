//! What is called before and after each call.

/// What is called before and after each call of a connection.
pub trait Gate {
    /// Returns once a call may begin, with its number.
    fn before(&self) -> u64;

    /// The call with this number was answered.
    fn after(&self, n: u64);
}

/// Lets each call begin at once.
#[derive(Clone, Copy, Drop)]
pub struct NoGate;

impl Gate for NoGate {
    fn before(&self) -> u64 {
        0
    }

    fn after(&self, _n: u64) {}
}
