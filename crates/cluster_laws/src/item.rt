//! What was sent.

use messages::{Call as SentCall, ToAgent, ToMaster};
use names_core::StreamId;
use values::Shared;

/// A call with the stream that it came with, or a mail with its agent.
/// It is shared with the entry that sent it.
#[derive(Drop)]
pub enum Item {
    Call(Option<StreamId>, Shared<SentCall>),
    ToAgent(Shared<ToAgent>),
    ToMaster(Shared<ToMaster>),
}
