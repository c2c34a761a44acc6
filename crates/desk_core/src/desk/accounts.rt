//! Whether a pass accounts for the entries of its seat.

ghost use Rattle.std.specs.Prelude.{◌≡◌, ◌<◌, ◌==◌, ◌↔◌, IsTrue, count_by};
ghost use Rattle.desk_core.specs.Receipts.{StandsIn};
ghost use Rattle.desk_core.specs.Walked.{IsOfSeat, Rises};

use crate::desk::Desk;
use crate::desk::pass::{Receipt, Slip};
use crate::recorded::Recorded;
use std::sync::ledger;

/// Whether a receipt is of an entry of the seat.
fn is_of_seat<C: Recorded>(
    recorded: &C,
    seats: &[u32],
    seat: u32,
    receipt: &Receipt<C::Entry>,
) -> bool
    ensures { IsTrue result ↔ ((0 < receipt.now.number)
        × IsOfSeat seat 0 seats.now (C.history recorded.now) receipt.now) }
{
    if receipt.number == 0 {
        return false;
    }
    let index = receipt.number as usize - 1;
    index < seats.len() && seats[index] == seat && recorded.is_entry(index, &receipt.entry)
}

/// Whether the receipts are of entries of the seat, and their numbers rise.
fn rise<C: Recorded>(recorded: &C, seats: &[u32], seat: u32, receipts: &[Receipt<C::Entry>]) -> bool
    ensures { IsTrue result ↔ Rises seat 0 seats.now (C.history recorded.now) 0 receipts.now }
{
    let mut last = 0;
    for i in 0..receipts.len() {
        let receipt = &receipts[i];
        if receipt.number <= last || !is_of_seat::<C>(recorded, seats, seat, receipt) {
            return false;
        }
        last = receipt.number;
    }
    true
}

/// How many entries are nobody's.
fn nobodys(seats: &[u32]) -> usize
    ensures { result ≡ count_by (λ s. s == 0) seats.now }
{
    seats.iter().filter(|seat| **seat == 0).count()
}

impl<C: Recorded, L: ledger::Ledger> Desk<C, L> {
    /// How many entries a seat has, or nobody.
    fn entries_of(&self, seat: u32) -> usize
        ensures { result ≡ count_by (λ s. s == seat) self.now.seats }
    {
        if seat == 0 {
            return nobodys(self.seats.as_slice());
        }
        let counts = self.counts.as_slice();
        if seat as usize > counts.len() {
            return 0;
        }
        counts[seat as usize - 1] as usize
    }

    /// Whether the receipts of a pass are the entries of its seat, each once and in order.
    /// It takes time in the number of the receipts alone.
    pub(super) fn accounts(&self, slip: &Slip<C::Entry>) -> bool
        ensures { IsTrue result ↔ StandsIn (C.history self.now.recorded) self.now.seats slip.now }
    {
        self.entries();
        let receipts = slip.receipts();
        let seat = slip.seat();
        if self.entries_of(seat) != receipts.len() {
            return false;
        }
        rise::<C>(&self.recorded, self.seats.as_slice(), seat, receipts)
    }
}
