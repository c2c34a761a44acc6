//! What a desk records, and who waits for it.

ghost use Rattle.std.specs.Prelude.{◌≡◌, ◌≤◌, ◌++◌, ◌∷◌, [], ◌↔◌, ℕ, List, Some, IsTrue, IfOk, IfErr, OnErr, length, slice_get};
ghost use Rattle.desk_core.specs.declared.fault.FaultKind.{FaultKind};
ghost use Rattle.desk_core.specs.declared.fault.FaultKind.TheVariants.{OutOfMemory};
ghost use Rattle.desk_core.specs.declared.recorded.Freed.{Freed};

use crate::fault::FaultKind;
use std::alloc::Global;

/// The entry of a step that was taken, and what comes with it.
#[derive(Drop)]
pub struct Entered<E, G> {
    pub entry: E,
    pub given: G,
}

/// How many groups of waiting callers an office has, whatever it records.
pub const GROUPS: u32 = 5_121;

/// Whom an output of a step frees: those who wait for it.
#[derive(Clone, Copy, Debug, Drop, PartialEq, Eq)]
pub enum Freed {
    /// Those of a group, a number from 0 to `GROUPS - 1`.
    Group(u32),
    Nobody,
    Everyone,
}

/// What takes one step after another, and records each that it took.
pub trait Recorded: Drop {
    /// What a caller requests.
    type Step: Drop;

    /// A step that was taken, with what became of it. It is one value:
    /// a copy is one more owner of it.
    type Entry: Drop;

    /// What comes with the entry of a step. It is returned once, to who requested the step,
    /// and nobody else keeps it.
    type Given: Drop;

    /// Why a step isn't taken.
    type Fault: Drop;

    /// What a caller may wait for.
    type Awaited: Drop;

    /// The entries since the opening, the oldest first.
    ghost history: { Self → List Self.Entry };

    /// The step of an entry.
    ghost step_of: { Self.Entry → Self.Step };

    /// What a fault means.
    ghost kind_of: { Self.Fault → FaultKind };

    /// What is true of it whatever steps it took.
    ghost sound: { Self → Type 0 };

    /// The one state took this step with this entry and returned this, which left the other state.
    ghost takes: { Self → Self.Step → Self.Entry → Self.Given → Self → Type 0 };

    /// This state may refuse this step so.
    ghost may_refuse: { Self → Self.Step → Self.Fault → Type 0 };

    /// The two states answer alike.
    ghost alike: { Self → Self → Type 0 };

    /// The group in which those wait who wait for this.
    ghost waits_in: { Self.Awaited → ℕ };

    /// Whom the outputs of an entry's step free, in the outputs' order.
    ghost frees: { Self.Entry → List Freed };

    /// Takes a step, or refuses it.
    fn step(
        &mut self,
        alloc: Global,
        step: Self::Step,
    ) -> Result<Entered<Self::Entry, Self::Given>, Self::Fault>
        ensures entry { IfOk result (λ e. history self.new ≡ history self.old ++ e.entry ∷ []) }
        ensures step { IfOk result (λ e. step_of e.entry ≡ step) }
        ensures taken { IfOk result (λ e. takes self.old step e.entry e.given self.new) }
        ensures refused { IfErr result (λ fault. may_refuse self.old step fault) }
        ensures history { OnErr result (history self.new ≡ history self.old) }
        ensures unchanged { OnErr result (alike self.old self.new) };

    /// How many entries there are since the opening.
    fn len(&self) -> u32
        ensures len { result ≡ length (history self.now) }
        ensures most { length (history self.now) ≤ 4294967294 };

    /// Whether the entry at an index, from 0 for the first since the opening, is this one.
    fn is_entry(&self, index: usize, entry: &Self::Entry) -> bool
        ensures { IsTrue result ↔ (slice_get (history self.now) index ≡ Some entry.now) };

    /// One more owner of an entry. It takes no memory.
    fn share(entry: &Self::Entry) -> Self::Entry
        ensures { result ≡ entry.now };

    /// What a fault means.
    fn kind(fault: &Self::Fault) -> FaultKind
        ensures { result ≡ kind_of fault.now };

    /// The fault of a step for which memory is refused.
    fn out_of_memory() -> Self::Fault
        ensures { kind_of result ≡ OutOfMemory };

    /// The group of those who wait for this, from 0 to `GROUPS - 1`; a greater one is taken modulo
    /// `GROUPS`.
    fn group_of(awaited: &Self::Awaited) -> u32
        ensures { result ≡ waits_in awaited.now };

    /// Whom the output at an index frees, from 0 for the first of the entry's step; None behind the
    /// last. It takes no memory.
    fn freed_at(entry: &Self::Entry, index: usize) -> Option<Freed>
        ensures { result ≡ slice_get (frees entry.now) index };

    /// Whatever steps it took, it is sound.
    fn is_sound(&self)
        ensures { sound self.now };

    /// A state answers as itself.
    ghost alike_itself: { (state : Self) → alike state state };
}
