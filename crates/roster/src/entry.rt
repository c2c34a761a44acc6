//! The master's sessions with one agent.

ghost use Rattle.std.specs.Prelude.{◌≡◌, [], None, false, option_map, OnOk, OnErr, IfOk, IfErr};
ghost use Rattle.cluster_model.specs.Sides.{new_side, opened, lost};
ghost use Rattle.cluster_model.specs.Masters.{has_numbers, has_returned};
ghost use Rattle.cluster_model.specs.Mails.{judged_session, in_session};
ghost use Rattle.roster.specs.Sessions.{judged_report, report_opens, reported, after_report, issued_number, with_command, is_spent, newly, after_applied, oldest};
ghost use Rattle.roster.specs.Faults.{IsIssueRefusal, IsAppliedRefusal};

use crate::fault::RosterFault;
use messages::{Command, MasterRefusal};
use names_core::{AgentName, Run};
use std::alloc::Global;
use std::marker::Model;
use stream_core::LinkOut;

/// A configured agent: its open session in this run, if any, the commands issued in it, and the
/// greatest session that this run has closed. (What the agent owns is kept with its offers and
/// booked tasks.)
pub struct RosterEntry {
    name: AgentName,
    is_open: bool,
    session: u32,
    closed: u32,
    link: LinkOut<Command>,
}

// By hand, so that who drops one goes through none of its parts.
impl Drop for RosterEntry {
    fn drop(self) {
        let RosterEntry {
            name: _,
            is_open: _,
            session: _,
            closed: _,
            link: _,
        } = self;
    }
}

impl Model for RosterEntry {
    ghost use Rattle.std.specs.Prelude.{◌+◌, ◌≤◌, [], length};
    ghost use Rattle.cluster_model.specs.Sides.{Side};

    ghost Value = { Side };

    ghost view = { λ e. record {
      name = e.name;
      total = [];
      is_open = e.is_open;
      session = e.session;
      closed = e.closed;
      waiting = e.link.waiting;
      known = e.link.known;
      offers = [];
      booked = [];
    } };

    ghost invariant = { λ e. e.link.known + length e.link.waiting ≤ 4294967295 };
}

impl RosterEntry {
    pub(crate) fn new(alloc: Global, name: AgentName) -> RosterEntry
        ensures { result ≡ new_side name }
    {
        RosterEntry {
            name,
            is_open: false,
            session: 0,
            closed: 0,
            link: LinkOut::new(alloc),
        }
    }

    pub fn name(&self) -> &AgentName
        ensures { result.now ≡ self.now.name }
    {
        &self.name
    }

    /// Whether a session is open.
    pub fn is_open(&self) -> bool
        ensures { result ≡ self.now.is_open }
    {
        self.is_open
    }

    /// The open session, 0 where none is open.
    pub fn session(&self) -> u32
        ensures { result ≡ self.now.session }
    {
        self.session
    }

    /// The greatest session that this run has closed, 0 if none.
    pub fn closed(&self) -> u32
        ensures { result ≡ self.now.closed }
    {
        self.closed
    }

    /// Whether the agent has opened a session in this run.
    pub fn has_returned(&self) -> bool
        ensures { result ≡ has_returned self.now }
    {
        self.is_open || self.closed > 0
    }

    /// Whether so many command numbers are left in the session.
    pub fn has_numbers(&self, count: u64) -> bool
        ensures { result ≡ has_numbers count self.now }
    {
        let issued = u128::from(self.link.known()) + self.link.waiting().len() as u128;
        issued + u128::from(count) <= 4_294_967_295
    }

    /// The oldest command that isn't known to be applied, and its number.
    pub fn oldest(&self) -> Option<(u32, &Command)>
        ensures { option_map (λ c. (c.0, c.1.now)) result ≡ oldest self.now.known self.now.waiting }
    {
        let known = self.link.known();
        let command = self.link.waiting().front()?;
        Some((known + 1, command))
    }

    fn judge_session(&self, session: u32, otherwise: Option<MasterRefusal>) -> Option<MasterRefusal>
        ensures { result ≡ judged_session self.now session otherwise }
    {
        if self.is_open && session < self.session {
            return Some(MasterRefusal::OldSession);
        }
        if !self.is_open && session <= self.closed {
            return Some(MasterRefusal::Closed);
        }
        otherwise
    }

    /// Why a mail of a session is refused, if it is: `G2 OldSession` below the open session, `G3
    /// Closed` where none is open and this one is closed, `G4 NotOpen` where no Report has opened
    /// it.
    pub fn judge(&self, session: u32) -> Option<MasterRefusal>
        ensures { result ≡ in_session self.now session }
    {
        if self.is_open && session == self.session {
            return None;
        }
        self.judge_session(session, Some(MasterRefusal::NotOpen))
    }

    fn judge_report(&self, run: Run, session: u32, number: u32) -> Option<MasterRefusal>
        ensures { result ≡ judged_report run self.now session number }
    {
        if number == u32::from(run.number()) {
            self.judge_session(session, None)
        } else {
            Some(MasterRefusal::OtherRun)
        }
    }

    fn report_opens(&self, run: Run, session: u32, number: u32) -> bool
        ensures { result ≡ report_opens run self.now session number }
    {
        let last = if self.is_open {
            self.session
        } else {
            self.closed
        };
        number == u32::from(run.number()) && last < session
    }

    fn open(&mut self, alloc: Global, session: u32)
        ensures { self.new ≡ opened self.old session [] [] }
    {
        if self.is_open {
            self.closed = self.session;
        }
        self.is_open = true;
        self.session = session;
        self.link = LinkOut::new(alloc);
    }

    pub(crate) fn report(
        &mut self,
        alloc: Global,
        run: Run,
        session: u32,
        number: u32,
    ) -> Result<bool, MasterRefusal>
        ensures answer { result ≡ reported run self.old session number }
        ensures side { self.new ≡ after_report run session number self.old }
    {
        if let Some(refusal) = self.judge_report(run, session, number) {
            return Err(refusal);
        }
        if !self.report_opens(run, session, number) {
            return Ok(false);
        }
        self.open(alloc, session);
        Ok(true)
    }

    pub(crate) fn close(&mut self, alloc: Global)
        ensures { self.new ≡ lost self.old }
    {
        if self.is_open {
            self.is_open = false;
            self.closed = self.session;
            self.session = 0;
            self.link = LinkOut::new(alloc);
        }
    }

    pub(crate) fn issue(&mut self, command: Command) -> Result<Option<u32>, RosterFault>
        ensures number { IfOk result (λ n. n ≡ issued_number self.old) }
        ensures ok { OnOk result (self.new ≡ with_command command self.old) }
        ensures numbers { OnOk result (is_spent self.old ≡ false) }
        ensures refused { IfErr result (IsIssueRefusal (is_spent self.old)) }
        ensures err { OnErr result (self.new ≡ self.old) }
    {
        if !self.is_open {
            return Ok(None);
        }
        if self.link.is_spent() {
            return Err(RosterFault::Spent);
        }
        match self.link.issue(command) {
            Ok(number) => Ok(Some(number)),
            Err(_) => Err(RosterFault::OutOfMemory),
        }
    }

    pub(crate) fn applied(
        &mut self,
        alloc: Global,
        session: u32,
        count: u32,
    ) -> Result<Vec<Command>, RosterFault>
        ensures newly { IfOk result (λ commands. commands.items ≡ newly session count self.old) }
        ensures ok { OnOk result (self.new ≡ after_applied session count self.old) }
        ensures judged { OnOk result (in_session self.old session ≡ None) }
        ensures refused { IfErr result (IsAppliedRefusal (in_session self.old session)) }
        ensures err { OnErr result (self.new ≡ self.old) }
    {
        if let Some(refusal) = self.judge(session) {
            return Err(RosterFault::Refused(refusal));
        }
        if !self.is_open {
            return Ok(Vec::new(alloc));
        }
        Ok(self.link.applied(alloc, count)?)
    }
}
