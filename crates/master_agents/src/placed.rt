//! Changes of the book at the places of the roster's agents.

ghost use Rattle.std.specs.Prelude.{◌≡◌, ◌<◌, [], slice_get, IfSome, OnOk};
ghost use Rattle.offer_tables.specs.Reports.{AreBookableOn};
ghost use Rattle.offer_tables.specs.Accounts.{after_commands, receiving, reopened, without_named};
ghost use Rattle.master_agents.specs.Joined.{Fit, at_place};

use messages::{Booked, Command};
use names_core::{FrameworkId, OfferId};
use offer_tables::{OfferBook, TaskUpdate};
use quantity::Resources;
use roster::RosterEntry;
use std::alloc::{AllocError, Global};
use values::Listed;

pub(crate) fn empty_at(entries: &[RosterEntry], book: &mut OfferBook, alloc: Global, place: usize)
    requires { Fit entries.now book.old }
    ensures { book.new ≡ at_place place (reopened [] []) book.old }
{
    if place < entries.len() {
        let nothing = Resources::new(alloc);
        let _emptied = book.empty_agent(entries[place].name(), nothing);
    }
}

pub(crate) fn reopen_at(
    entries: &[RosterEntry],
    book: &mut OfferBook,
    alloc: Global,
    place: usize,
    tasks: Listed<Booked>,
    total: Resources,
) -> Result<(), AllocError>
    requires fit { Fit entries.now book.old }
    requires bookable { IfSome (slice_get entries.now place)
        (λ s. AreBookableOn s.name tasks total book.old) }
    ensures ok { OnOk result (book.new ≡ at_place place (reopened tasks total) book.old) }
    ensures fit { Fit entries.now book.new }
{
    if place >= entries.len() {
        return Ok(());
    }
    match book.reopen(alloc, entries[place].name(), tasks, total) {
        Ok(()) => Ok(()),
        Err(_) => Err(AllocError),
    }
}

pub(crate) fn receive_at(
    entries: &[RosterEntry],
    book: &mut OfferBook,
    place: usize,
    update: &TaskUpdate,
)
    requires small { update.now.k < 4294967295 }
    requires fit { Fit entries.now book.old }
    ensures { book.new ≡ at_place place
        (receiving update.now.key update.now.k update.now.state update.now.ended) book.old }
{
    if place < entries.len() {
        let _received = book.receive_on(entries[place].name(), update);
    }
}

pub(crate) fn forget_by_at(
    entries: &[RosterEntry],
    book: &mut OfferBook,
    place: usize,
    commands: &[Command],
)
    requires { Fit entries.now book.old }
    ensures { book.new ≡ at_place place (after_commands commands.now) book.old }
{
    if place < entries.len() {
        let _forgotten = book.forget_by(entries[place].name(), commands);
    }
}

pub(crate) fn withdraw_named_at(
    entries: &[RosterEntry],
    book: &mut OfferBook,
    place: usize,
    framework: FrameworkId,
    ids: &[OfferId],
)
    requires { Fit entries.now book.old }
    ensures { book.new ≡ at_place place (without_named framework ids.now) book.old }
{
    if place < entries.len() {
        let _withdrawn = book.withdraw_used(entries[place].name(), framework, ids);
    }
}
