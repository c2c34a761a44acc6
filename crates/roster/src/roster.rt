//! The roster of all agents.

ghost use Rattle.std.specs.Prelude.{◌≡◌, ◌++◌, ◌∷◌, [], Some, None, Ok, true, false, OnOk, OnErr, IfOk, IfErr};
ghost use Rattle.cluster_model.specs.Sides.{new_side, lost};
ghost use Rattle.cluster_model.specs.Mails.{in_session};
ghost use Rattle.roster.specs.Sessions.{reported, after_report, issued_number, with_command, is_spent, newly, after_applied};
ghost use Rattle.roster.specs.Places.{at_place, value_at};
ghost use Rattle.roster.specs.Faults.{IsIssueRefusal, IsAppliedRefusal};

use crate::entry::RosterEntry;
use crate::fault::RosterFault;
use messages::{Command, MasterRefusal};
use names_core::{AgentName, Run};
use std::alloc::{AllocError, Global};
use std::marker::Model;

/// The configured agents, each at its place. An agent is named by its place;
/// of a place past the end nothing is known, and nothing happens there.
#[derive(Drop)]
pub struct Roster {
    entries: Vec<RosterEntry>,
}

impl Model for Roster {
    ghost use Rattle.std.specs.Prelude.{List};
    ghost use Rattle.cluster_model.specs.Sides.{Side};

    ghost Value = { List Side };

    ghost view = { λ roster. roster.entries.items };
}

fn report_in(
    entries: &mut Vec<RosterEntry>,
    alloc: Global,
    place: usize,
    run: Run,
    session: u32,
    number: u32,
) -> Result<bool, MasterRefusal>
    ensures answer { result ≡ value_at place (λ s. reported run s session number) (Ok false)
        entries.old.items }
    ensures sides { entries.new.items ≡ at_place place (after_report run session number)
        entries.old.items }
{
    if place >= entries.len() {
        return Ok(false);
    }
    entries[place].report(alloc, run, session, number)
}

fn close_in(entries: &mut Vec<RosterEntry>, alloc: Global, place: usize)
    ensures { entries.new.items ≡ at_place place lost entries.old.items }
{
    if place < entries.len() {
        entries[place].close(alloc);
    }
}

fn issue_in(
    entries: &mut Vec<RosterEntry>,
    place: usize,
    command: Command,
) -> Result<Option<u32>, RosterFault>
    ensures number { IfOk result (λ n. n ≡ value_at place issued_number None entries.old.items) }
    ensures ok { OnOk result (entries.new.items
        ≡ at_place place (with_command command) entries.old.items) }
    ensures numbers { OnOk result (value_at place is_spent false entries.old.items ≡ false) }
    ensures refused { IfErr result
        (IsIssueRefusal (value_at place is_spent false entries.old.items)) }
    ensures err { OnErr result (entries.new.items ≡ entries.old.items) }
{
    if place >= entries.len() {
        return Ok(None);
    }
    entries[place].issue(command)
}

fn applied_in(
    entries: &mut Vec<RosterEntry>,
    alloc: Global,
    place: usize,
    session: u32,
    count: u32,
) -> Result<Vec<Command>, RosterFault>
    ensures newly { IfOk result (λ commands. commands.items
        ≡ value_at place (newly session count) [] entries.old.items) }
    ensures ok { OnOk result (entries.new.items
        ≡ at_place place (after_applied session count) entries.old.items) }
    ensures judged { OnOk result (value_at place (λ s. in_session s session) None entries.old.items
        ≡ None) }
    ensures refused { IfErr result
        (IsAppliedRefusal (value_at place (λ s. in_session s session) None entries.old.items)) }
    ensures err { OnErr result (entries.new.items ≡ entries.old.items) }
{
    if place >= entries.len() {
        return Ok(Vec::new(alloc));
    }
    entries[place].applied(alloc, session, count)
}

fn judge_in(entries: &[RosterEntry], place: usize, session: u32) -> Option<MasterRefusal>
    ensures { result ≡ value_at place (λ s. in_session s session) None entries.now }
{
    if place >= entries.len() {
        return None;
    }
    entries[place].judge(session)
}

impl Roster {
    /// A roster without agents.
    pub fn new(alloc: Global) -> Roster
        ensures { result ≡ [] }
    {
        Roster {
            entries: Vec::new(alloc),
        }
    }

    /// Adds a configured agent after the others: it has not yet opened a session in this run.
    pub fn add_agent(&mut self, alloc: Global, name: AgentName) -> Result<(), AllocError>
        ensures ok { OnOk result (self.new ≡ self.old ++ new_side name ∷ []) }
        ensures err { OnErr result (self.new ≡ self.old) }
    {
        self.entries.push(RosterEntry::new(alloc, name))?;
        Ok(())
    }

    pub fn entries(&self) -> &[RosterEntry]
        ensures { result.now ≡ self.now }
    {
        self.entries.as_slice()
    }

    /// An agent reports that it has opened a session with the master of a run. Returns whether the
    /// session is opened here; a Report of the open session changes nothing. `G1 OtherRun` where it
    /// isn't this run, `G2 OldSession` below the open session, `G3 Closed` where none is open and
    /// the session isn't above every closed one. It takes no memory.
    pub fn report(
        &mut self,
        alloc: Global,
        place: usize,
        run: Run,
        session: u32,
        number: u32,
    ) -> Result<bool, MasterRefusal>
        ensures answer { result ≡ value_at place (λ s. reported run s session number) (Ok false)
            self.old }
        ensures sides { self.new ≡ at_place place (after_report run session number) self.old }
    {
        report_in(&mut self.entries, alloc, place, run, session, number)
    }

    /// Closes the open session, where there is one; its commands are removed. It takes no memory.
    pub fn close_session(&mut self, alloc: Global, place: usize)
        ensures { self.new ≡ at_place place lost self.old }
    {
        close_in(&mut self.entries, alloc, place);
    }

    /// Issues a command in the open session and returns its number; where no session is open none
    /// is issued and `None` is returned. `L2 Spent` where the session's last command has the last
    /// number, `G5 OutOfMemory` where a number is left and memory was refused.
    pub fn issue(&mut self, place: usize, command: Command) -> Result<Option<u32>, RosterFault>
        ensures number { IfOk result (λ n. n ≡ value_at place issued_number None self.old) }
        ensures ok { OnOk result (self.new ≡ at_place place (with_command command) self.old) }
        ensures numbers { OnOk result (value_at place is_spent false self.old ≡ false) }
        ensures refused { IfErr result (IsIssueRefusal (value_at place is_spent false self.old)) }
        ensures err { OnErr result (self.new ≡ self.old) }
    {
        issue_in(&mut self.entries, place, command)
    }

    /// The first `count` commands of a session are applied: returns those that weren't known to be,
    /// in order. Refused as by `judge`; `G5 OutOfMemory` where memory was refused.
    pub fn applied(
        &mut self,
        alloc: Global,
        place: usize,
        session: u32,
        count: u32,
    ) -> Result<Vec<Command>, RosterFault>
        ensures newly { IfOk result (λ commands. commands.items
            ≡ value_at place (newly session count) [] self.old) }
        ensures ok { OnOk result (self.new ≡ at_place place (after_applied session count)
            self.old) }
        ensures judged { OnOk result (value_at place (λ s. in_session s session) None self.old
            ≡ None) }
        ensures refused { IfErr result
            (IsAppliedRefusal (value_at place (λ s. in_session s session) None self.old)) }
        ensures err { OnErr result (self.new ≡ self.old) }
    {
        applied_in(&mut self.entries, alloc, place, session, count)
    }

    /// Why a mail of a session is refused, if it is: `G2 OldSession` below the open session, `G3
    /// Closed` where none is open and this one is closed, `G4 NotOpen` where no Report has opened
    /// it.
    pub fn judge(&self, place: usize, session: u32) -> Option<MasterRefusal>
        ensures { result ≡ value_at place (λ s. in_session s session) None self.now }
    {
        judge_in(&self.entries, place, session)
    }
}
