//! What is read of a cluster beside its history.

ghost use Rattle.std.specs.Prelude.{◌≡◌, ◌≤◌, length, option_map, IfNone, IfSome};
ghost use Rattle.cluster_core.specs.Reading.{IsNextFrom, IsNextTo, NoneFrom, NoneTo, is_open_in, stream_in, waiting_in};
ghost use Rattle.cluster_core.specs.Stories.{state_of};
ghost use Rattle.cluster_model.specs.Clusters.{master_of};
ghost use Rattle.cluster_parts.specs.Masters.{kept_master};

use crate::advancing::place_in;
use crate::cluster::Cluster;
use cluster_channels::{Direction, Post, Queues};
use cluster_laws::{agents_keep_their_names, items_are_posts};
use master_core::Master;
use names_core::{AgentName, StreamId};

impl<P: Post + Drop> Cluster<P> {
    /// How many entries there are since the opening.
    pub fn entry_count(&self) -> usize
        ensures count { result ≡ length self.now.story.entries }
        ensures most { length self.now.story.entries ≤ 4294967294 }
    {
        self.history.entries.len()
    }

    /// How many calls and mails were ever sent; the next that is sent has the number after it.
    pub fn sent_count(&self) -> usize
        ensures { result ≡ length (state_of self.now.story).posts }
    {
        self.parts.served.items.as_slice().len()
    }

    /// How many events of a stream nobody took yet, and whether it is a framework's open one, which
    /// none is while no master serves. None for a stream that was never opened.
    pub fn stream(&self, stream: StreamId) -> Option<(usize, bool)>
        ensures { result ≡ stream_in stream (state_of self.now.story) }
    {
        match self.waiting_on(stream) {
            Some(waiting) => Some((waiting, self.is_open(stream))),
            None => None,
        }
    }

    /// The master; None where none serves.
    pub fn master(&self) -> Option<&Master>
        ensures { option_map (λ m. m.now) result
            ≡ kept_master (master_of (state_of self.now.story)) }
    {
        match &self.parts.served.master {
            Some(master) => Some(master),
            None => None,
        }
    }

    /// How many events wait on a stream; None for one that was never opened.
    fn waiting_on(&self, stream: StreamId) -> Option<usize>
        ensures { result ≡ waiting_in stream (state_of self.now.story) }
    {
        self.parts.served.streams.count(stream)
    }

    /// Whether a stream is a framework's open one.
    fn is_open(&self, stream: StreamId) -> bool
        ensures { result ≡ is_open_in stream (state_of self.now.story) }
    {
        match &self.parts.served.master {
            Some(master) => master.is_open(stream),
            None => false,
        }
    }
}

impl Cluster<Queues> {
    /// The number of the first mail to an agent that wasn't delivered, None where there is none.
    pub fn first_mail(&self, agent: &AgentName) -> Option<u64>
        ensures first { IfSome result
            (IsNextTo agent.now (state_of self.now.story) self.now.post.items) }
        ensures none { IfNone result
            (NoneTo agent.now (state_of self.now.story) self.now.post.items) }
    {
        agents_keep_their_names();
        items_are_posts();
        let place = place_in(self.parts.config.agents(), agent)?;
        self.parts
            .served
            .post
            .first_waiting(Direction::ToAgent(place))
    }

    /// The number of the first mail from an agent to the master that wasn't delivered,
    /// None where there is none.
    pub fn first_mail_from(&self, agent: &AgentName) -> Option<u64>
        ensures first { IfSome result
            (IsNextFrom agent.now (state_of self.now.story) self.now.post.items) }
        ensures none { IfNone result
            (NoneFrom agent.now (state_of self.now.story) self.now.post.items) }
    {
        agents_keep_their_names();
        items_are_posts();
        let place = place_in(self.parts.config.agents(), agent)?;
        self.parts
            .served
            .post
            .first_waiting(Direction::FromAgent(place))
    }
}
