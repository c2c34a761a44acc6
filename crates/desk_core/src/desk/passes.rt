//! The passes over which a desk is closed.

ghost use Rattle.std.specs.Prelude.{◌≡◌, ◌+◌, ◌++◌, ◌∷◌, [], IfErr, OnOk, OnErr, length, option_map, option_to_list, unwrap_or};
ghost use Rattle.desk_core.specs.Receipts.{PassState};

use crate::desk::pass::{Pass, Slip};
use std::alloc::{AllocFailed, Global};
use std::marker::Model;
use std::sync::ledger;
use std::sync::ledger::Share;

/// Passes over which a desk is closed. Their shares of the count are merged,
/// so that they can be compared with its total.
#[derive(Drop)]
pub struct Passes<E, L: ledger::Ledger> {
    pub(super) slips: Vec<Slip<E>>,
    pub(super) share: Option<Share<L>>,
}

impl<E, L: ledger::Ledger> Model for Passes<E, L> {
    ghost use Rattle.std.specs.Prelude.{◌≡◌, List, length, option_map, sum_by, unwrap_or};
    ghost use Rattle.desk_core.specs.Receipts.{PassState};

    ghost Value = { List (PassState E) };

    ghost view = { λ p. p.slips.items };

    ghost invariant = { λ p.
        (unwrap_or (option_map (λ s. s.parts) p.share) 0 ≡ length p.slips.items)
        × (unwrap_or (option_map (λ s. s.amount) p.share) 0
        ≡ sum_by (λ s. length s.receipts) p.slips.items) };
}

/// Two shares as one.
fn merged<L: ledger::Ledger>(one: Option<Share<L>>, other: Share<L>) -> Share<L>
    ensures parts { result.parts ≡ unwrap_or (option_map (λ s. s.parts) one) 0 + other.parts }
    ensures amount { result.amount ≡ unwrap_or (option_map (λ s. s.amount) one) 0 + other.amount }
{
    match one {
        Some(one) => {
            let mut all = one;
            all.merge(other);
            all
        }
        None => other,
    }
}

impl<E, L: ledger::Ledger> Passes<E, L> {
    pub fn new(alloc: Global) -> Passes<E, L>
        ensures { result ≡ [] }
    {
        Passes {
            slips: Vec::new(alloc),
            share: None,
        }
    }

    pub fn len(&self) -> usize
        ensures { result ≡ length self.now }
    {
        self.slips.len()
    }

    /// Adds one more. Where memory is refused it is returned.
    pub fn push(&mut self, pass: Pass<E, L>) -> Result<(), AllocFailed<Pass<E, L>>>
        ensures pushed { OnOk result (self.new ≡ self.old ++ pass ∷ []) }
        ensures unchanged { OnErr result (self.new ≡ self.old) }
        ensures returned { IfErr result (λ e. e.value ≡ pass) }
    {
        if self.slips.reserve(1).is_err() {
            return Err(AllocFailed { value: pass });
        }
        let Pass { slip, share } = pass;
        self.share = Some(merged(self.share.take(), share));
        self.slips.push_reserved(slip);
        Ok(())
    }

    /// Removes the one that was added last, and returns it.
    pub fn pop(&mut self) -> Option<Pass<E, L>>
        ensures { self.old ≡ self.new ++ option_to_list result }
    {
        let slip = self.slips.pop()?;
        let count = slip.receipts().len() as u64;
        match &mut self.share {
            Some(all) => Some(Pass {
                slip,
                share: all.split_off(1, count),
            }),
            None => unreachable!(),
        }
    }

    pub(super) fn slips(&self) -> &[Slip<E>]
        ensures { result.now ≡ self.now }
    {
        self.slips.as_slice()
    }
}
