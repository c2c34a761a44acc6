//! How a desk is closed.

ghost use Rattle.std.specs.Prelude.{◌≡◌, ◌≤◌, ◌+◌, ◌↔◌, IsTrue, IfOk, IfErr, All, length, sum_by};
ghost use Rattle.desk_core.specs.Receipts.{StandsIn};
ghost use Rattle.desk_core.specs.declared.fault.OfficeFault.TheVariants.{ForeignPass};

use crate::desk::Desk;
use crate::desk::pass::Slip;
use crate::desk::passes::Passes;
use crate::desk::seated::SeatedHistory;
use crate::fault::OfficeFault;
use crate::recorded::Recorded;
use std::sync::ledger;

impl<C: Recorded, L: ledger::Ledger> Desk<C, L> {
    /// There are at least as many entries as the passes have receipts together.
    fn audit(&mut self, passes: &mut Passes<C::Entry, L>)
        ensures bound { sum_by (λ p. length p.receipts) passes.old
            ≤ length (C.history self.old.recorded) }
        ensures same { (self.new ≡ self.old) × (passes.new ≡ passes.old) }
    {
        self.entries();
        if let Some(all) = &mut passes.share {
            self.book.audit(all);
        }
    }

    /// Whether the receipts of each pass are the entries of its seat.
    fn accounts_all(&self, slips: &[Slip<C::Entry>]) -> bool
        ensures { IsTrue result ↔ All (λ p. StandsIn (C.history self.now.recorded) self.now.seats p)
            slips.now }
    {
        for slip in slips {
            if !self.accounts(slip) {
                return false;
            }
        }
        true
    }

    /// What is left of the desk.
    fn into_history(self) -> SeatedHistory<C>
        ensures { (result.recorded ≡ self.recorded) × (result.seats ≡ self.seats) }
    {
        let Desk {
            recorded,
            seats,
            counts,
            finished: _,
            book,
            rest,
        } = self;
        drop(counts);
        drop(book);
        drop(rest);
        SeatedHistory { recorded, seats }
    }

    /// Closes the desk over these passes: for each the entries of its seat are its receipts, each
    /// once and in order. It takes time in the number of the receipts. Refusal: O1, where the
    /// receipts of a pass aren't its seat's entries; the desk and the passes are returned as they
    /// were. Either way there are at least as many entries as the passes have receipts together.
    pub fn close(
        self,
        passes: Passes<C::Entry, L>,
    ) -> Result<SeatedHistory<C>, (Desk<C, L>, Passes<C::Entry, L>, OfficeFault<C::Fault>)>
        ensures sound { IfOk result (λ h. C.sound h.recorded) }
        ensures same_history { IfOk result (λ h. (h.recorded ≡ self.recorded)
            × (h.seats ≡ self.seats)) }
        ensures stands { IfOk result
            (λ h. All (λ p. StandsIn (C.history h.recorded) h.seats p) passes) }
        ensures returned { IfErr result (λ e. (e.0 ≡ self) × (e.1 ≡ passes)) }
        ensures foreign { IfErr result
            (λ e. (e.2 ≡ ForeignPass (length (C.history e.0.recorded) + 1))
            × (All (λ p. StandsIn (C.history e.0.recorded) e.0.seats p) passes → ⊥)) }
        ensures count { sum_by (λ p. length p.receipts) passes ≤ length (C.history self.recorded) }
    {
        let mut desk = self;
        let mut passes = passes;
        desk.audit(&mut passes);
        desk.is_sound();
        if !desk.accounts_all(passes.slips()) {
            let entries = desk.len();
            return Err((desk, passes, OfficeFault::ForeignPass(entries)));
        }
        Ok(desk.into_history())
    }
}
