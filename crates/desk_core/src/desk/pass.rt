//! What a caller holds.

ghost use Rattle.std.specs.Prelude.{◌≡◌, ◌-◌, ◌++◌, ◌∷◌, [], List, Some, length, slice_get, option_map};
ghost use Rattle.desk_core.specs.Receipts.{PassState};

use std::marker::Model;
use std::sync::ledger;
use std::sync::ledger::Share;

/// An owner of an entry, and the entry's number; the opening has number 0.
#[derive(Drop)]
pub struct Receipt<E> {
    pub number: u32,
    pub entry: E,
}

/// The receipt of a step that was answered, and what is returned with it and is in no pass.
#[derive(Drop)]
pub struct Answered<E, G> {
    pub receipt: Receipt<E>,
    pub given: G,
}

/// A pass without its share of the count.
#[derive(Drop)]
pub(crate) struct Slip<E> {
    pub(super) seat: u32,
    pub(super) seen: u32,
    pub(super) receipts: Vec<Receipt<E>>,
}

impl<E> Model for Slip<E> {
    ghost use Rattle.desk_core.specs.Receipts.{PassState};

    ghost Value = { PassState E };

    ghost view = { λ s. record { seat = s.seat; seen = s.seen; receipts = s.receipts.items } };
}

/// What a caller holds: its seat, how much of the history it has seen, and a receipt for each of
/// its answers. Its share of the count of answers is the number of its receipts.
#[derive(Drop)]
pub struct Pass<E, L: ledger::Ledger> {
    pub(super) slip: Slip<E>,
    pub(super) share: Share<L>,
}

impl<E, L: ledger::Ledger> Model for Pass<E, L> {
    ghost use Rattle.std.specs.Prelude.{◌≡◌, length};
    ghost use Rattle.desk_core.specs.Receipts.{PassState};

    ghost Value = { PassState E };

    ghost view = { λ p. p.slip };

    ghost invariant = { λ p. (p.share.amount ≡ length p.slip.receipts) × (p.share.parts ≡ 1) };
}

impl<E> Slip<E> {
    pub(super) fn seat(&self) -> u32
        ensures { result ≡ self.now.seat }
    {
        self.seat
    }

    fn seen(&self) -> u32
        ensures { result ≡ self.now.seen }
    {
        self.seen
    }

    pub(super) fn receipts(&self) -> &[Receipt<E>]
        ensures { result.now ≡ self.now.receipts }
    {
        self.receipts.as_slice()
    }
}

/// The last of some receipts.
fn last_of<E>(receipts: &[Receipt<E>]) -> Option<&Receipt<E>>
    ensures { option_map (λ r. r.now) result ≡ slice_get receipts.now (length receipts.now - 1) }
{
    receipts.last()
}

impl<E, L: ledger::Ledger> Pass<E, L> {
    pub fn seat(&self) -> u32
        ensures { result ≡ self.now.seat }
    {
        self.slip.seat()
    }

    /// How much of the history it has seen, the opening counted.
    pub fn seen(&self) -> u32
        ensures { result ≡ self.now.seen }
    {
        self.slip.seen()
    }

    /// The receipts of its answers, the oldest first.
    pub fn receipts(&self) -> &[Receipt<E>]
        ensures { result.now ≡ self.now.receipts }
    {
        self.slip.receipts()
    }

    /// The receipt of its last answer.
    pub fn last(&self) -> Option<&Receipt<E>>
        ensures last { option_map (λ r. r.now) result
            ≡ slice_get self.now.receipts (length self.now.receipts - 1) }
        ensures pushed { (before : List (Receipt E)) (r : Receipt E)
            → self.now.receipts ≡ before ++ r ∷ [] → option_map (λ x. x.now) result ≡ Some r }
    {
        last_of(self.receipts())
    }
}
