//! Which of all that was ever sent can be delivered: rules by number, without the contents.

mod direction;
mod ever_sent;
mod laws;
mod post;
mod queues;
mod stores;

pub use direction::Direction;
pub use ever_sent::EverSent;
pub use laws::queues_hand_out_once;
pub use post::Post;
pub use queues::Queues;
