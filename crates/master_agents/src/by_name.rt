//! Look-ups and changes by agents' names, and the mails that a tick sends.

ghost use Rattle.std.specs.Prelude.{◌≡◌, ◌<◌, ◌++◌, [], Some, None, Ok, true, false, flat_map, IfOk, OnOk, OnErr, IfErr};
ghost use Rattle.messages.specs.declared.mail.AgentMail.TheVariants.{Applied, Update};
ghost use Rattle.cluster_model.specs.Mails.{in_session, judged_session};
ghost use Rattle.cluster_model.specs.Sides.{Run as ModelRun, received, lost};
ghost use Rattle.roster.specs.Faults.{IsAppliedRefusal};
ghost use Rattle.roster.specs.Sessions.{judged_report, report_opens, reported};
ghost use Rattle.master_agents.specs.Changes.{reporting};
ghost use Rattle.master_agents.specs.Looks.{at_name, value_of};
ghost use Rattle.master_agents.specs.Reports.{AreBookable};
ghost use Rattle.master_agents.specs.ByName.{again_of, mails_at_tick};

use crate::sides::Sides;
use messages::{Booked, MasterMail, MasterRefusal, ToAgent};
use names_core::{AgentName, Run};
use offer_tables::{OffersAt, TaskUpdate, TasksAt};
use quantity::Resources;
use roster::{RosterEntry, RosterFault};
use std::alloc::{AllocError, Global};
use values::{Listed, Plain};

fn is_open_of(entries: &[RosterEntry], name: &AgentName) -> bool
    ensures { result ≡ value_of name.now (λ s. s.is_open) false entries.now }
{
    for entry in entries {
        if entry.name().is(name) {
            return entry.is_open();
        }
    }
    false
}

fn closed_of(entries: &[RosterEntry], name: &AgentName) -> Option<u32>
    ensures { result ≡ value_of name.now (λ s. Some s.closed) None entries.now }
{
    for entry in entries {
        if entry.name().is(name) {
            return Some(entry.closed());
        }
    }
    None
}

fn judge_of(entries: &[RosterEntry], name: &AgentName, session: u32) -> Option<MasterRefusal>
    ensures { result ≡ value_of name.now (λ s. in_session s session) None entries.now }
{
    for entry in entries {
        if entry.name().is(name) {
            return entry.judge(session);
        }
    }
    None
}

fn judge_session(entry: &RosterEntry, session: u32) -> Option<MasterRefusal>
    ensures { result ≡ judged_session entry.now session None }
{
    if entry.is_open() && session < entry.session() {
        return Some(MasterRefusal::OldSession);
    }
    if !entry.is_open() && session <= entry.closed() {
        return Some(MasterRefusal::Closed);
    }
    None
}

fn judge_report(entry: &RosterEntry, run: Run, session: u32, number: u32) -> Option<MasterRefusal>
    ensures { result ≡ judged_report run entry.now session number }
{
    if number == u32::from(run.number()) {
        judge_session(entry, session)
    } else {
        Some(MasterRefusal::OtherRun)
    }
}

fn report_opens(entry: &RosterEntry, run: Run, session: u32, number: u32) -> bool
    ensures { result ≡ report_opens run entry.now session number }
{
    let last = if entry.is_open() {
        entry.session()
    } else {
        entry.closed()
    };
    number == u32::from(run.number()) && last < session
}

fn report_to(
    entry: &RosterEntry,
    run: Run,
    session: u32,
    number: u32,
) -> Result<bool, MasterRefusal>
    ensures { result ≡ reported run entry.now session number }
{
    match judge_report(entry, run, session, number) {
        Some(refusal) => Err(refusal),
        None => Ok(report_opens(entry, run, session, number)),
    }
}

fn report_of(
    entries: &[RosterEntry],
    name: &AgentName,
    run: Run,
    session: u32,
    number: u32,
) -> Result<bool, MasterRefusal>
    ensures { result ≡ value_of name.now (λ s. reported run s session number) (Ok false)
        entries.now }
{
    for entry in entries {
        if entry.name().is(name) {
            return report_to(entry, run, session, number);
        }
    }
    Ok(false)
}

/// What is sent to an agent at a tick, if anything.
fn mail_at_tick(run: Run, entry: &RosterEntry) -> Result<Option<MasterMail>, AllocError>
    ensures { IfOk result (λ mail. mail ≡ again_of run entry.now) }
{
    if !entry.is_open() {
        return Ok(Some(MasterMail::Hello {
            run,
            dead: entry.closed(),
        }));
    }
    match entry.oldest() {
        None => Ok(None),
        Some((number, command)) => Ok(Some(MasterMail::Issued {
            session: entry.session(),
            number,
            command: command.copy()?,
        })),
    }
}

fn send_one(
    alloc: Global,
    run: Run,
    entry: &RosterEntry,
    mails: &mut Listed<ToAgent>,
) -> Result<(), AllocError>
    ensures { OnOk result (mails.new ≡ mails.old ++ mails_at_tick run entry.now) }
{
    match mail_at_tick(run, entry)? {
        None => Ok(()),
        Some(mail) => {
            let agent = entry.name().copy()?;
            mails.push(ToAgent { agent, mail })
        }
    }
}

fn send_all(
    alloc: Global,
    run: Run,
    entries: &[RosterEntry],
    mails: &mut Listed<ToAgent>,
) -> Result<(), AllocError>
    ensures { OnOk result (mails.new ≡ mails.old ++ flat_map (mails_at_tick run) entries.now) }
{
    for entry in entries {
        send_one(alloc, run, entry, mails)?;
    }
    Ok(())
}

/// By agents' names. For a name that isn't configured a look-up returns false, `None` or an empty
/// list, and a change does nothing.
impl Sides {
    /// Whether the agent has an open session.
    pub fn is_open(&self, name: &AgentName) -> bool
        ensures { result ≡ value_of name.now (λ s. s.is_open) false self.now }
    {
        is_open_of(self.roster.entries(), name)
    }

    /// The greatest session of the agent that this run has closed, 0 if none.
    pub fn closed(&self, name: &AgentName) -> Option<u32>
        ensures { result ≡ value_of name.now (λ s. Some s.closed) None self.now }
    {
        closed_of(self.roster.entries(), name)
    }

    /// Why a mail of a session is refused, if it is: `G2 OldSession` below the open session, `G3
    /// Closed` where none is open and this one is closed, `G4 NotOpen` where no Report has opened
    /// it.
    pub fn judge(&self, name: &AgentName, session: u32) -> Option<MasterRefusal>
        ensures { result ≡ value_of name.now (λ s. in_session s session) None self.now }
    {
        judge_of(self.roster.entries(), name, session)
    }

    /// Whether a Report of this session, with the master of run `number`, would open it.
    /// Refused as `report` is.
    pub fn judge_report(
        &self,
        name: &AgentName,
        run: Run,
        session: u32,
        number: u32,
    ) -> Result<bool, MasterRefusal>
        ensures { result ≡ value_of name.now (λ s. reported run s session number) (Ok false)
            self.now }
    {
        report_of(self.roster.entries(), name, run, session, number)
    }

    /// The current offers on the agent, in order of their making.
    pub fn offers_of(&self, name: &AgentName) -> OffersAt<'_>
        ensures { result ≡ value_of name.now (λ s. s.offers) [] self.now }
    {
        match self.place_of(name) {
            Some(place) => self.book.offers_at(place),
            None => self.book.offers_at(self.book.len()),
        }
    }

    /// The tasks that are booked on the agent, ended ones too.
    pub fn tasks_of(&self, name: &AgentName) -> TasksAt<'_>
        ensures { result ≡ value_of name.now (λ s. s.booked) [] self.now }
    {
        match self.place_of(name) {
            Some(place) => self.book.tasks_at(place),
            None => self.book.tasks_at(self.book.len()),
        }
    }

    /// Appends to `mails` what a tick sends to each agent, in order of the agents: a Hello where no
    /// session is open, else the oldest command that isn't known to be applied, again.
    pub fn send_again(
        &self,
        alloc: Global,
        run: Run,
        mails: &mut Listed<ToAgent>,
    ) -> Result<(), AllocError>
        ensures { OnOk result (mails.new ≡ mails.old ++ flat_map (mails_at_tick run) self.now) }
    {
        send_all(alloc, run, self.roster.entries(), mails)
    }

    /// The agent is lost, as `lose` does it.
    pub fn lose_named(&mut self, alloc: Global, name: &AgentName)
        ensures { self.new ≡ at_name name.now lost self.old }
    {
        if let Some(place) = self.place_of(name) {
            self.lose(alloc, place);
        }
    }

    /// An agent reports that it has opened a session with the master of run `number`, that it has
    /// these tasks, and that it owns this total. Where the Report opens the session here, the book
    /// has these tasks and this total; else nothing happens. Where memory is refused, the session
    /// is opened, and some first of the tasks are booked.
    pub fn receive_report(
        &mut self,
        alloc: Global,
        name: &AgentName,
        run: Run,
        session: u32,
        number: u32,
        tasks: Listed<Booked>,
        total: Resources,
    ) -> Result<(), AllocError>
        requires { value_of name.now (λ s. report_opens run s session number) false self.old ≡ true
            → AreBookable name.now tasks total self.old }
        ensures { OnOk result (self.new
            ≡ at_name name.now (reporting run session number tasks total) self.old) }
    {
        match self.place_of(name) {
            Some(place) => self.report(alloc, place, run, session, number, tasks, total),
            None => Ok(()),
        }
    }

    /// A count of the agent's applied commands is received, as by `applied`, and refused as there.
    pub fn receive_applied(
        &mut self,
        alloc: Global,
        name: &AgentName,
        session: u32,
        count: u32,
    ) -> Result<(), RosterFault>
        ensures ok { (run : ModelRun)
            → OnOk result (self.new ≡ at_name name.now (λ s. received run s (Applied session count))
            self.old) }
        ensures refused { IfErr result
            (IsAppliedRefusal (value_of name.now (λ s. in_session s session) None self.old)) }
        ensures err { OnErr result (self.new ≡ self.old) }
    {
        match self.place_of(name) {
            None => Ok(()),
            Some(place) => self.applied(alloc, place, session, count),
        }
    }

    /// An update of a task on the agent is received, as by `receive`.
    pub fn receive_update(&mut self, name: &AgentName, session: u32, update: &TaskUpdate)
        requires { update.now.k < 4294967295 }
        ensures { (run : ModelRun) → self.new ≡ at_name name.now
            (λ s. received run s (Update session update.now.key update.now.k update.now.state
            update.now.ended)) self.old }
    {
        if let Some(place) = self.place_of(name) {
            self.receive(place, session, update);
        }
    }
}
