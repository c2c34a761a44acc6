//! Saves that fail, saves at the same time, rounds of time, and an activity that has nothing to do.

ghost use Rattle.std.specs.Prelude.{◌≡◌};

use crate::cabinets::{Flags, Held, Kept, Shelf};
use crate::offices::{OWNED, PARTS, named, office, seat};
use crate::parts::{End, Part, Played, both, play};
use cluster_core::Step;
use desk_agents::CabinetFailures;
use desk_core::{Awaited, Running};
use desk_lock::{Office, Turn};
use std::alloc::Global;
use std::marker::Brand;
use std::sync::ledger::Blank;
use std::sync::{Wait, ledger};
use std::thread::Threads;
use std::time::Clock;

fn if_in_time(one: Option<Played>, end: End) -> Option<Played> {
    if end == End::Late { None } else { one }
}

/// What the first did of two, the second of which was to finish the office in time.
fn in_time(one: Option<Played>, finisher: Option<Played>) -> Option<Played> {
    match finisher {
        Some(played) => if_in_time(one, played.end),
        None => None,
    }
}

/// What an activity does whose first save fails, where the office is finished at so many entries.
fn worked<
    D: Running + Send + Sync,
    L: ledger::Ledger + Send + Sync,
    R: Threads + Wait + Clock + Sync,
>(rt: &R, alloc: Global, office: &Office<D, L>, keeps: Kept, count: usize) -> Option<Played> {
    let (agent, shelf) = (named(alloc, "a1")?, Shelf::new(Some(keeps)));
    let part = Part::Agent(agent, shelf, CabinetFailures::Fatal, OWNED);
    let (worked, finisher) = both(rt, alloc, office, part, Part::Finisher(count));
    in_time(worked, finisher)
}

fn failed_save<L: ledger::Ledger + Send + Sync, R: Threads + Wait + Clock + Sync>(
    rt: &R,
    alloc: Global,
    blank: Blank,
    keeps: Kept,
    count: usize,
) -> Option<Played>
    requires name { blank.name ≡ L.name }
    requires parts { (blank.parts ≡ L.parts) × (blank.parts ≡ 4294967296) }
{
    match office::<L>(alloc, blank, &["a1"]) {
        Some(office) => worked(rt, alloc, &office, keeps, count),
        None => None,
    }
}

/// The same in an office of its own.
fn after_failed_save<R: Threads + Wait + Clock + Sync>(
    rt: &R,
    alloc: Global,
    keeps: Kept,
    count: usize,
) -> Option<Played> {
    failed_save::<Brand, R>(rt, alloc, Blank::new(PARTS), keeps, count)
}

fn begins(played: &Option<Played>, letters: &[u8], end: End) -> bool {
    match played {
        Some(played) => played.letters.as_slice().starts_with(letters) && played.end == end,
        None => false,
    }
}

fn is(played: &Option<Played>, letters: &[u8], end: End) -> bool {
    match played {
        Some(played) => played.letters.as_slice() == letters && played.end == end,
        None => false,
    }
}

pub fn the_old_record_stands<R: Threads + Wait + Clock + Sync>(rt: &R, alloc: Global) -> bool {
    let played = after_failed_save(rt, alloc, Kept::Before, 2);
    begins(&played, b"PB", End::Finished)
}

/// The activity finishes the office itself: nobody else does so before 100 entries.
pub fn another_record_stands<R: Threads + Wait + Clock + Sync>(rt: &R, alloc: Global) -> bool {
    let played = after_failed_save(rt, alloc, Kept::Neither, 100);
    is(&played, b"P", End::Damaged)
}

/// The agent comes up over the record that was to be saved, starts, and saves and commits again.
pub fn the_new_record_stands<R: Threads + Wait + Clock + Sync>(rt: &R, alloc: Global) -> bool {
    let played = after_failed_save(rt, alloc, Kept::After, 5);
    begins(&played, b"PAPCD", End::Finished)
}

/// What an activity does of whose agent more is configured than it owns,
/// where the office is finished at so many entries.
fn grown<
    D: Running + Send + Sync,
    L: ledger::Ledger + Send + Sync,
    R: Threads + Wait + Clock + Sync,
>(rt: &R, alloc: Global, office: &Office<D, L>, count: usize) -> Option<Played> {
    let (agent, shelf) = (named(alloc, "a1")?, Shelf::new(None));
    let part = Part::Agent(agent, shelf, CabinetFailures::Fatal, OWNED + 2);
    let (grown, finisher) = both(rt, alloc, office, part, Part::Finisher(count));
    in_time(grown, finisher)
}

fn grows<L: ledger::Ledger + Send + Sync, R: Threads + Wait + Clock + Sync>(
    rt: &R,
    alloc: Global,
    blank: Blank,
) -> bool
    requires name { blank.name ≡ L.name }
    requires parts { (blank.parts ≡ L.parts) × (blank.parts ≡ 4294967296) }
{
    let Some(office) = office::<L>(alloc, blank, &["a1"]) else {
        return false;
    };
    match grown(rt, alloc, &office, 6) {
        Some(played) => {
            played.letters.as_slice() == b"PCDPCD".as_slice()
                && played.causes.as_slice() == b"MT".as_slice()
        }
        None => false,
    }
}

/// The agent receives the greeting, and at its first turn in the session
/// starts with the larger total, once.
pub fn a_larger_total<R: Threads + Wait + Clock + Sync>(rt: &R, alloc: Global) -> bool {
    grows::<Brand, _>(rt, alloc, Blank::new(PARTS))
}

/// Two agents, each of which holds its save until the other's is open.
fn two_saves_at<
    D: Running + Send + Sync,
    L: ledger::Ledger + Send + Sync,
    R: Threads + Wait + Clock + Sync,
>(rt: &R, alloc: Global, office: &Office<D, L>) -> Option<(Option<Played>, Option<Played>)> {
    let flags = Flags::new();
    let one = Part::Held(named(alloc, "a1")?, Held::new(&flags, true));
    let two = Part::Held(named(alloc, "a2")?, Held::new(&flags, false));
    Some(both(rt, alloc, office, one, two))
}

fn two_saves<L: ledger::Ledger + Send + Sync, R: Threads + Wait + Clock + Sync>(
    rt: &R,
    alloc: Global,
    blank: Blank,
) -> bool
    requires name { blank.name ≡ L.name }
    requires parts { (blank.parts ≡ L.parts) × (blank.parts ≡ 4294967296) }
{
    let Some(office) = office::<L>(alloc, blank, &["a1", "a2"]) else {
        return false;
    };
    match two_saves_at(rt, alloc, &office) {
        Some((one, two)) => is(&one, b"P", End::Overlapped) && is(&two, b"P", End::Overlapped),
        None => false,
    }
}

pub fn two_saves_overlap<R: Threads + Wait + Clock + Sync>(rt: &R, alloc: Global) -> bool {
    two_saves::<Brand, _>(rt, alloc, Blank::new(PARTS))
}

fn has_two_rounds(played: &Option<Played>) -> bool {
    match played {
        Some(played) => {
            let moments = played.moments.as_slice();
            played.letters.as_slice().starts_with(b"TOTO")
                && moments.len() >= 2
                && moments[0] == 0
                && moments[1] >= 1
        }
        None => false,
    }
}

/// Whether a ticker makes two rounds, a second apart.
fn makes_two_rounds<L: ledger::Ledger + Send + Sync, R: Threads + Wait + Clock + Sync>(
    rt: &R,
    alloc: Global,
    blank: Blank,
) -> bool
    requires name { blank.name ≡ L.name }
    requires parts { (blank.parts ≡ L.parts) × (blank.parts ≡ 4294967296) }
{
    match office::<L>(alloc, blank, &["a1"]) {
        Some(office) => {
            let (ticked, finisher) = both(rt, alloc, &office, Part::Ticker, Part::Finisher(4));
            has_two_rounds(&in_time(ticked, finisher))
        }
        None => false,
    }
}

pub fn two_rounds<R: Threads + Wait + Clock + Sync>(rt: &R, alloc: Global) -> bool {
    makes_two_rounds::<Brand, _>(rt, alloc, Blank::new(PARTS))
}

/// Whether an office answers others.
fn answers<D: Running, L: ledger::Ledger, R: Wait + Clock>(
    rt: &R,
    alloc: Global,
    office: &Office<D, L>,
) -> bool {
    match seat(rt, alloc, office) {
        Some(mut pass) => {
            let step = Step::Allocate;
            matches!(
                office.wait_call(
                    rt,
                    alloc,
                    &mut pass,
                    Awaited::time(),
                    |_| Turn::Answer,
                    step
                ),
                Ok(Some(_))
            )
        }
        None => false,
    }
}

fn played_unknown<D: Running, L: ledger::Ledger, R: Wait + Clock>(
    rt: &R,
    alloc: Global,
    office: &Office<D, L>,
) -> Option<Played> {
    let (agent, shelf) = (named(alloc, "b9")?, Shelf::new(None));
    let part = Part::Agent(agent, shelf, CabinetFailures::Fatal, OWNED);
    play(rt, alloc, office, part)
}

/// Whether the activity of an agent that isn't configured does nothing,
/// and the office answers others still.
fn ends_at_once<L: ledger::Ledger, R: Wait + Clock>(rt: &R, alloc: Global, blank: Blank) -> bool
    requires name { blank.name ≡ L.name }
    requires parts { (blank.parts ≡ L.parts) × (blank.parts ≡ 4294967296) }
{
    match office::<L>(alloc, blank, &["a1"]) {
        Some(office) => {
            let played = played_unknown(rt, alloc, &office);
            is(&played, b"", End::Finished) && answers(rt, alloc, &office)
        }
        None => false,
    }
}

pub fn an_unknown_agent<R: Wait + Clock>(rt: &R, alloc: Global) -> bool {
    ends_at_once::<Brand, _>(rt, alloc, Blank::new(PARTS))
}

fn played_damaged<D: Running, L: ledger::Ledger, R: Wait + Clock>(
    rt: &R,
    alloc: Global,
    office: &Office<D, L>,
) -> Option<Played> {
    let (agent, shelf) = (named(alloc, "a1")?, Shelf::new(Some(Kept::Neither)));
    let part = Part::Agent(agent, shelf, CabinetFailures::Borne, OWNED);
    play(rt, alloc, office, part)
}

/// Whether the activity of an agent ends whose cabinet keeps another record, where its failures are
/// borne, and the office answers others still.
fn ends_alone<L: ledger::Ledger, R: Wait + Clock>(rt: &R, alloc: Global, blank: Blank) -> bool
    requires name { blank.name ≡ L.name }
    requires parts { (blank.parts ≡ L.parts) × (blank.parts ≡ 4294967296) }
{
    match office::<L>(alloc, blank, &["a1"]) {
        Some(office) => {
            let played = played_damaged(rt, alloc, &office);
            is(&played, b"P", End::Damaged) && answers(rt, alloc, &office)
        }
        None => false,
    }
}

pub fn another_record_alone<R: Wait + Clock>(rt: &R, alloc: Global) -> bool {
    ends_alone::<Brand, _>(rt, alloc, Blank::new(PARTS))
}
