//! A desk under a lock.

ghost use Rattle.std.specs.Prelude.{◌≡◌, ◌≤◌, ◌+◌, [], Err, None, IfOk, IfErr, IfNone, OnErr, All, MatchOption, MatchResult, length, sum_by};
ghost use Rattle.desk_core.specs.Receipts.{IsAnswered, StandsIn};
ghost use Rattle.std.specs.Fn.{FnReturnsAt};
ghost use Rattle.desk_lock.specs.Waits.{HasStopped, IsWaited, WaitEnds, WaitStops};
ghost use Rattle.desk_lock.specs.declared.office.Turn.TheVariants.{End};
ghost use Rattle.desk_core.specs.Found.{IsNextSeat, IsRefusedCall, IsRefusedSeat, IsRefusedWait};
ghost use Rattle.desk_core.specs.Refused.{refused_by};
ghost use Rattle.desk_core.specs.declared.fault.OfficeFault.TheVariants.{ForeignPass};

use crate::groups::Groups;
use desk_core::{
    Answered, Desk, Freed, OfficeFault, Pass, Passes, Recorded, SeatedHistory, refusal,
};
use std::alloc::Global;
use std::sync::{Mutex, MutexGuard, Wait, ledger};
use std::time::{Clock, Duration};

/// What a waiting caller does in a state.
#[derive(Clone, Copy, Drop, PartialEq, Eq)]
pub enum Turn {
    Wait,
    /// Its step is answered.
    Answer,
    /// Its step isn't answered.
    End,
}

/// Why a wait ended.
#[derive(Clone, Copy, Drop, PartialEq, Eq)]
pub enum Waited<T> {
    Found(T),
    /// The time is up.
    Elapsed,
    /// The office is finished.
    Finished,
}

/// What a waiting caller does at a desk.
fn turn_at<C: Recorded, L: ledger::Ledger, F: Fn(&C) -> Turn>(desk: &Desk<C, L>, look: &F) -> Turn
    requires { F.IsAlwaysCallable look.now }
    ensures { result ≡ End → HasStopped (λ c turn. FnReturnsAt F.Fn look.now c turn) desk.now }
{
    if desk.is_finished() {
        return Turn::End;
    }
    look(desk.recorded())
}

/// Whether a caller who waits for something finds nothing at a desk.
fn waits_at<T: Drop, C: Recorded, L: ledger::Ledger, F: Fn(&C) -> Result<Option<T>, C::Fault>>(
    desk: &Desk<C, L>,
    look: &F,
) -> bool
    requires { F.IsAlwaysCallable look.now }
{
    if desk.is_finished() {
        return false;
    }
    match look(desk.recorded()) {
        Ok(None) => true,
        _ => false,
    }
}

/// What a caller who waited finds at a desk.
fn found_at<T, C: Recorded, L: ledger::Ledger, F: Fn(&C) -> Result<Option<T>, C::Fault>>(
    desk: &Desk<C, L>,
    look: &F,
) -> Result<Waited<T>, OfficeFault<C::Fault>>
    requires { F.IsAlwaysCallable look.now }
    ensures waited { IfOk result
        (IsWaited (λ c found. FnReturnsAt F.Fn look.now c found) desk.now) }
    ensures refused { IfErr result (λ fault. (f : C.Fault)
        × FnReturnsAt F.Fn look.now desk.now.recorded (Err f)
        × (fault ≡ refused_by (C.kind_of f) f)) }
{
    if desk.is_finished() {
        return Ok(Waited::Finished);
    }
    match look(desk.recorded()) {
        Ok(Some(found)) => Ok(Waited::Found(found)),
        Ok(None) => Ok(Waited::Elapsed),
        Err(fault) => Err(refusal::<C>(fault)),
    }
}

/// Answers a call at a desk, whichever it is.
fn answer_at<C: Recorded, L: ledger::Ledger>(
    desk: &mut Desk<C, L>,
    alloc: Global,
    pass: &mut Pass<C::Entry, L>,
    step: C::Step,
) -> Result<Answered<C::Entry, C::Given>, OfficeFault<C::Fault>>
    ensures answered { IfOk result
        (λ a. IsAnswered C.history C.sound C.step_of C.takes pass.old pass.new step a) }
    ensures unchanged { OnErr result (pass.new ≡ pass.old) }
    ensures refused { IfErr result
        (λ fault. IsRefusedCall C.history C.sound C.kind_of C.may_refuse pass.old step fault) }
    ensures seat { pass.new.seat ≡ pass.old.seat }
{
    desk.is_sound();
    desk.counts(pass);
    desk.answer(alloc, pass, step)
}

/// Opens a desk's next seat, whichever it is.
fn open_seat_at<C: Recorded, L: ledger::Ledger>(
    desk: &mut Desk<C, L>,
    alloc: Global,
) -> Result<Pass<C::Entry, L>, OfficeFault<C::Fault>>
    ensures opened { IfOk result (IsNextSeat C.history C.sound) }
    ensures unused { IfOk result (λ p. (p.receipts ≡ []) × (p.seen ≡ 0)) }
    ensures refused { IfErr result (IsRefusedSeat C.history C.sound) }
{
    desk.is_sound();
    desk.open_seat(alloc)
}

/// A desk that threads share. One call at a time is answered, under its one lock.
pub struct Office<C: Recorded, L: ledger::Ledger> {
    desk: Mutex<Desk<C, L>>,
    groups: Groups,
}

// By hand, so that the proof of who drops one visits none of its parts.
impl<C: Recorded + Drop, L: ledger::Ledger> Drop for Office<C, L> {
    fn drop(self) {
        let Office { desk: _, groups: _ } = self;
    }
}

impl<C: Recorded, L: ledger::Ledger> Office<C, L> {
    pub fn new(desk: Desk<C, L>) -> Office<C, L> {
        Office {
            desk: Mutex::new(desk),
            groups: Groups::new(),
        }
    }

    /// Opens the next seat. Refusals: O5 where 4,294,967,295 seats were opened, and O3 where fewer
    /// were.
    pub fn open_seat<R: Wait>(
        &self,
        rt: &R,
        alloc: Global,
    ) -> Result<Pass<C::Entry, L>, OfficeFault<C::Fault>>
        ensures opened { IfOk result (IsNextSeat C.history C.sound) }
        ensures unused { IfOk result (λ p. (p.receipts ≡ []) × (p.seen ≡ 0)) }
        ensures refused { IfErr result (IsRefusedSeat C.history C.sound) }
    {
        open_seat_at(&mut *self.desk.lock(rt), alloc)
    }

    /// Wakes those who may go on after an answer: whom its outputs free. Neighbours that free the
    /// same, as the events of a reconciliation, wake them once.
    fn wake(&self, answered: &Answered<C::Entry, C::Given>) {
        let entry = &answered.receipt.entry;
        let mut woken = Freed::Nobody;
        for index in 0..usize::MAX {
            let Some(freed) = C::freed_at(entry, index) else {
                return;
            };
            if freed != woken {
                self.groups.wake(freed);
            }
            woken = freed;
        }
    }

    /// Answers a call: the pass gets its receipt, which is returned too, with what comes with it.
    /// Refusals: O1 for a pass of another history, with how many entries there are at that moment,
    /// O2, O3 and O4.
    pub fn call<R: Wait>(
        &self,
        rt: &R,
        alloc: Global,
        pass: &mut Pass<C::Entry, L>,
        step: C::Step,
    ) -> Result<Answered<C::Entry, C::Given>, OfficeFault<C::Fault>>
        ensures answered { IfOk result
            (λ a. IsAnswered C.history C.sound C.step_of C.takes pass.old pass.new step a) }
        ensures unchanged { OnErr result (pass.new ≡ pass.old) }
        ensures refused { IfErr result
            (λ fault. IsRefusedCall C.history C.sound C.kind_of C.may_refuse pass.old step fault) }
        ensures seat { pass.new.seat ≡ pass.old.seat }
    {
        let answer = answer_at(&mut *self.desk.lock(rt), alloc, pass, step);
        match answer {
            Ok(answered) => {
                self.wake(&answered);
                Ok(answered)
            }
            Err(fault) => Err(fault),
        }
    }

    /// Waits for what is awaited, until a look at what is recorded says what to do.
    /// It returns the locked desk, or None where a step isn't to be answered.
    fn await_turn<R: Wait, F: Fn(&C) -> Turn>(
        &self,
        rt: &R,
        awaited: C::Awaited,
        look: F,
    ) -> Option<MutexGuard<'_, Desk<C, L>>>
        requires { F.IsAlwaysCallable look }
        ensures { IfNone result
            (WaitStops C.history C.sound (λ c turn. FnReturnsAt F.Fn look c turn)) }
    {
        let group = self.groups.of(C::group_of(&awaited));
        let mut desk = self.desk.lock(rt);
        for _ in rt.forever() {
            let locked = &*desk;
            match turn_at(locked, &look) {
                Turn::Wait => desk = group.wait(rt, desk),
                Turn::Answer => return Some(desk),
                Turn::End => {
                    locked.is_sound();
                    return None;
                }
            }
        }
        unreachable!()
    }

    /// Waits for what is awaited, until a look at what is recorded says what to do, then answers
    /// the step, if it is to, as `call` does. It looks again after each step that may have output
    /// that. Once the office is finished nobody waits, and it isn't answered. Refusals: as of
    /// `call`.
    pub fn wait_call<R: Wait, F: Fn(&C) -> Turn>(
        &self,
        rt: &R,
        alloc: Global,
        pass: &mut Pass<C::Entry, L>,
        awaited: C::Awaited,
        look: F,
        step: C::Step,
    ) -> Result<Option<Answered<C::Entry, C::Given>>, OfficeFault<C::Fault>>
        requires { F.IsAlwaysCallable look }
        ensures answered { IfOk result
            (λ answered. MatchOption answered (pass.new ≡ pass.old)
            (λ a. IsAnswered C.history C.sound C.step_of C.takes pass.old pass.new step a)) }
        ensures stopped { IfOk result (λ answered. answered ≡ None
            → WaitStops C.history C.sound (λ c turn. FnReturnsAt F.Fn look c turn)) }
        ensures unchanged { OnErr result (pass.new ≡ pass.old) }
        ensures refused { IfErr result
            (λ fault. IsRefusedCall C.history C.sound C.kind_of C.may_refuse pass.old step fault) }
        ensures seat { pass.new.seat ≡ pass.old.seat }
    {
        let Some(mut desk) = self.await_turn(rt, awaited, look) else {
            return Ok(None);
        };
        let answer = answer_at(&mut *desk, alloc, pass, step);
        drop(desk);
        match answer {
            Ok(answered) => {
                self.wake(&answered);
                Ok(Some(answered))
            }
            Err(fault) => Err(fault),
        }
    }

    /// Waits for what is awaited, for so long at most, while a look at what is recorded
    /// finds nothing. It returns the locked desk.
    fn await_found<'a, T: Drop, R: Wait + Clock, F: Fn(&C) -> Result<Option<T>, C::Fault>>(
        &'a self,
        rt: &R,
        desk: MutexGuard<'a, Desk<C, L>>,
        awaited: C::Awaited,
        time: Duration,
        look: &F,
    ) -> MutexGuard<'a, Desk<C, L>>
        requires { F.IsAlwaysCallable look.now }
    {
        let group = C::group_of(&awaited);
        self.groups
            .wait_for(rt, group, desk, time, |desk| waits_at(&*desk, look))
    }

    /// Waits for what is awaited, for so long at most, until a look at what is recorded
    /// finds something; it was so in one state, and may have changed since. Refusals: O1 for a pass
    /// of another history, and O2, O3 or O4 for a fault that the look returns.
    pub fn wait_for<T: Drop, R: Wait + Clock, F: Fn(&C) -> Result<Option<T>, C::Fault>>(
        &self,
        rt: &R,
        pass: &Pass<C::Entry, L>,
        awaited: C::Awaited,
        time: Duration,
        look: F,
    ) -> Result<Waited<T>, OfficeFault<C::Fault>>
        requires { F.IsAlwaysCallable look }
        ensures refused { IfErr result
            (λ fault. IsRefusedWait C.history C.sound C.kind_of
            (λ c f. FnReturnsAt F.Fn look c (Err f)) pass.now fault) }
        ensures waited { IfOk result
            (WaitEnds C.history C.sound (λ c found. FnReturnsAt F.Fn look c found)) }
    {
        let desk = self.desk.lock(rt);
        let found = &*desk;
        if found.is_foreign(pass) {
            found.is_sound();
            return Err(OfficeFault::ForeignPass(found.len()));
        }
        let desk = self.await_found(rt, desk, awaited, time, &look);
        let desk = &*desk;
        desk.is_sound();
        found_at(desk, &look)
    }

    /// From now on nobody waits.
    pub fn finish<R: Wait>(&self, rt: &R) {
        self.desk.lock(rt).finish();
        self.groups.wake_all();
    }

    /// Closes the office over these passes, as `Desk::close` does: for each the entries of its seat
    /// are its receipts, each once and in order. Refusal: O1; the desk and the passes are returned.
    /// It waits for nobody.
    pub fn close(
        self,
        passes: Passes<C::Entry, L>,
    ) -> Result<SeatedHistory<C>, (Desk<C, L>, Passes<C::Entry, L>, OfficeFault<C::Fault>)>
        ensures sound { IfOk result (λ h. C.sound h.recorded) }
        ensures stands { IfOk result
            (λ h. All (λ p. StandsIn (C.history h.recorded) h.seats p) passes) }
        ensures returned { IfErr result (λ e. e.1 ≡ passes) }
        ensures foreign { IfErr result
            (λ e. (e.2 ≡ ForeignPass (length (C.history e.0.recorded) + 1))
            × (All (λ p. StandsIn (C.history e.0.recorded) e.0.seats p) passes → ⊥)) }
        ensures count { MatchResult result (λ h. sum_by (λ p. length p.receipts) passes
            ≤ length (C.history h.recorded))
            (λ e. sum_by (λ p. length p.receipts) passes ≤ length (C.history e.0.recorded)) }
    {
        let Office { desk, groups } = self;
        drop(groups);
        desk.into_inner().close(passes)
    }
}
