//! What can be delivered of what was enqueued.

use cluster_channels::{Direction, EverSent, Post, Queues};
use std::alloc::Global;

/// What was enqueued can be delivered, again and again, and nothing else.
pub fn what_was_put_can_be_handed_out(alloc: Global) -> bool {
    let mut post = EverSent::empty();
    match post.reserve(alloc, 2) {
        Ok(()) => {}
        Err(_) => return false,
    }
    let before = post.can_give(1);
    post.put(Direction::Call);
    post.put(Direction::ToAgent(0));
    let again = post.can_give(1) && post.can_give(1);
    !before && post.can_give(2) && again && !post.can_give(0) && !post.can_give(3)
}

/// Whether queues of two calls deliver the second, and then no more.
fn hand_out_once(post: &mut Queues) -> bool {
    let first = post.can_give(2) && !post.can_give(0) && !post.can_give(3);
    if post.can_give(2) {
        post.given(2);
    }
    first && post.can_give(1) && !post.can_give(2)
}

/// A call is delivered once.
pub fn a_call_is_handed_out_once(alloc: Global) -> bool {
    let mut post = Queues::empty();
    match post.reserve(alloc, 2) {
        Ok(()) => {}
        Err(_) => return false,
    }
    post.put(Direction::Call);
    post.put(Direction::Call);
    hand_out_once(&mut post)
}

/// Whether queues of four mails deliver the first, and then the one after it in its queue.
fn hand_out_in_order(post: &mut Queues) -> bool {
    let first = post.can_give(1) && post.can_give(2) && post.can_give(3) && !post.can_give(4);
    if post.can_give(1) {
        post.given(1);
    }
    first && !post.can_give(1) && post.can_give(2) && post.can_give(3) && post.can_give(4)
}

/// Mails are delivered in the order of their queue.
pub fn mails_are_handed_out_in_the_order_of_their_queue(alloc: Global) -> bool {
    let mut post = Queues::empty();
    match post.reserve(alloc, 4) {
        Ok(()) => {}
        Err(_) => return false,
    }
    post.put(Direction::ToAgent(1));
    post.put(Direction::FromAgent(1));
    post.put(Direction::ToAgent(0));
    post.put(Direction::ToAgent(1));
    hand_out_in_order(&mut post)
}
