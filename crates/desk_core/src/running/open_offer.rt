//! A current offer, as who answers it needs it.

use names_core::{FrameworkId, OfferId, StreamId};

/// A current offer, its framework, and where that is reached.
#[derive(Clone, Copy, Drop)]
pub struct OpenOffer {
    pub id: OfferId,
    pub framework: FrameworkId,
    /// The framework's open stream.
    pub stream: Option<StreamId>,
}
