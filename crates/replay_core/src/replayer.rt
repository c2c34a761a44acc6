//! The replayer.

ghost use Rattle.std.specs.Prelude.{◌≡◌, ◌+◌, IfOk, IfSome};
ghost use Rattle.std.specs.List.{list_all};
ghost use Rattle.cluster_core.specs.Safety.{Safe};
ghost use Rattle.step_text.specs.Configs.{read_config};
ghost use Rattle.step_text.specs.Lines.{read_step};
ghost use Rattle.replay_core.specs.Replays as replays;
ghost use Rattle.replay_core.specs.Stories.{fresh_story};

use crate::fault::LineStop;
use crate::replayed::{Replayed, end_table, opening_step, raised, take_step};
use frame_record::{LONGEST_LINE, LineAnswerer};
use std::alloc::{AllocError, Global};
use std::marker::Model;
use std::mem;
use step_text::{Config, LineFault, LineRefusal, read_config, read_step};

/// Answers the lines of a replay: the first says which agents there are, and each other one is a
/// step.
#[derive(Drop)]
pub struct Replayer {
    /// None before the first line.
    cluster: Option<Replayed>,
    lines: u64,
    steps: u64,
    sent: u64,
    fault: Option<LineStop>,
}

impl Model for Replayer {
    ghost use Rattle.replay_core.specs.Replays.{Replay};

    ghost Value = { Replay };

    ghost view = { λ r. record {
      story = r.cluster;
      lines = r.lines;
      steps = r.steps;
      sent = r.sent;
      fault = r.fault;
    } };
}

fn is_blank(byte: u8) -> bool
    ensures { result ≡ replays.is_blank byte }
{
    byte == b' ' || byte == b'\t' || byte == b'\r'
}

fn is_blank_line(line: &[u8]) -> bool
    ensures { result ≡ list_all replays.is_blank line.now }
{
    line.iter().all(|byte| is_blank(*byte))
}

fn is_passed_over(line: &[u8]) -> bool
    ensures { result ≡ replays.is_passed_over line.now }
{
    line.len() <= LONGEST_LINE && is_blank_line(line)
}

impl Replayer {
    /// Before the first line.
    pub fn new() -> Replayer
        ensures { result ≡ replays.beginning }
    {
        Replayer {
            cluster: None,
            lines: 0,
            steps: 0,
            sent: 0,
            fault: None,
        }
    }

    /// How many lines were read.
    pub fn lines(&self) -> u64
        ensures { result ≡ self.now.lines }
    {
        self.lines
    }

    /// The line that ended the replay; at the end of the input it is line 1 where there is none.
    pub fn fault(&self) -> Option<LineStop>
        ensures { result ≡ replays.fault self.now }
    {
        if self.fault.is_some() {
            return self.fault;
        }
        match &self.cluster {
            Some(_) => None,
            None => Some(LineStop {
                line: 1,
                refusal: LineRefusal::BadConfig,
            }),
        }
    }

    /// Whatever was replayed, the cluster is safe.
    pub fn is_safe(&self)
        ensures { IfSome self.now.story Safe }
    {
        if let Some(cluster) = &self.cluster {
            cluster.is_safe();
        }
    }

    /// This line ends the replay.
    fn stop(&mut self, line: u64, refusal: LineRefusal)
        requires { line ≡ self.old.lines + 1 }
        ensures { self.new ≡ (replays.stops self.old refusal).after }
    {
        self.lines = line;
        self.fault = Some(LineStop { line, refusal });
    }

    /// The cluster that is configured so is opened.
    fn begin(&mut self, alloc: Global, number: u64, config: Config) -> Result<Vec<u8>, AllocError>
        requires { number ≡ self.old.lines + 1 }
        ensures { IfOk result (λ text. replays.opened self.old
            (fresh_story config.agents config.weights)
            ≡ record { text = text.items; after = self.new }) }
    {
        let opened = Replayed::open(alloc, config)?;
        drop(mem::replace(&mut self.cluster, Some(opened)));
        let Some(cluster) = &self.cluster else {
            return Err(AllocError);
        };
        let answered_text = opening_step(alloc, cluster)?;
        self.lines = number;
        self.sent = answered_text.sent;
        Ok(answered_text.text)
    }

    /// The first line, which is this one of the text.
    fn open(&mut self, alloc: Global, number: u64, line: &[u8]) -> Result<Vec<u8>, AllocError>
        requires { number ≡ self.old.lines + 1 }
        ensures { IfOk result (λ text. replays.opens self.old (read_config line.now)
            ≡ record { text = text.items; after = self.new }) }
    {
        match read_config(alloc, line) {
            Ok(config) => self.begin(alloc, number, config),
            Err(LineFault::OutOfMemory) => Err(AllocError),
            Err(LineFault::Refused(refusal)) => {
                self.stop(number, refusal);
                Ok(Vec::new(alloc))
            }
        }
    }

    /// A step, on the line of this number.
    fn take(&mut self, alloc: Global, number: u64, line: &[u8]) -> Result<Vec<u8>, AllocError>
        requires { number ≡ self.old.lines + 1 }
        ensures { IfOk result (λ text. IfSome self.old.story
            (λ s. replays.takes self.old s (read_step line.now)
            ≡ record { text = text.items; after = self.new })) }
    {
        let step = match read_step(alloc, line) {
            Ok(step) => step,
            Err(LineFault::OutOfMemory) => return Err(AllocError),
            Err(LineFault::Refused(refusal)) => {
                self.stop(number, refusal);
                return Ok(Vec::new(alloc));
            }
        };
        let steps = raised(self.steps, 1)?;
        let first = raised(self.sent, 1)?;
        let Some(cluster) = &mut self.cluster else {
            return Err(AllocError);
        };
        let answered_text = take_step(cluster, alloc, steps, first, step)?;
        self.lines = number;
        self.steps = steps;
        self.sent = raised(self.sent, answered_text.sent)?;
        Ok(answered_text.text)
    }

    #[tactic(auto, unfolding(crate::specs::Replays::answer_to))]
    fn answer_read_line(&mut self, alloc: Global, line: &[u8]) -> Result<Vec<u8>, AllocError>
        ensures { IfOk result (λ text. replays.answer_to self.old line.now
            ≡ record { text = text.items; after = self.new }) }
    {
        if self.fault.is_some() {
            return Ok(Vec::new(alloc));
        }
        let number = raised(self.lines, 1)?;
        if self.cluster.is_none() {
            return self.open(alloc, number, line);
        }
        if is_passed_over(line) {
            self.lines = number;
            return Ok(Vec::new(alloc));
        }
        self.take(alloc, number, line)
    }
}

impl LineAnswerer for Replayer {
    ghost use Rattle.replay_core.specs.Replays as replays;
    ghost use Rattle.replay_core.specs.Laws as laws;

    ghost answered_text = { replays.answered_text };

    ghost after = { replays.after };

    ghost goes_on = { replays.goes_on };

    ghost ending = { replays.ending };

    fn answer_line(&mut self, alloc: Global, line: &[u8]) -> Result<Vec<u8>, AllocError> {
        self.answer_read_line(alloc, line)
    }

    fn goes_on(&self) -> bool {
        self.fault.is_none()
    }

    #[tactic(auto, unfolding(crate::specs::Replays::ending))]
    fn end(&self, alloc: Global) -> Result<Vec<u8>, AllocError> {
        if self.fault.is_some() {
            return Ok(Vec::new(alloc));
        }
        match &self.cluster {
            Some(replayed) => end_table(alloc, replayed.cluster()),
            None => Ok(Vec::new(alloc)),
        }
    }

    ghost stays = { laws.stays };

    ghost enough = { laws.enough };
}
