ghost use Rattle.std.specs.Prelude.{◌≡◌, ◌≤◌, ◌∷◌, [], ⊤, length, vec_len, refl};
ghost use Rattle.desk_core.specs.declared.recorded.Freed.TheVariants.{Group};

use desk_lock::{
    Desk, Entered, FaultKind, Freed, Office, OfficeFault, Pass, Passes, Recorded, Turn, Waited,
};
use std::alloc::Global;
use std::marker::Brand;
use std::sync::atomic::{AtomicBool, AtomicU64, Ordering};
use std::sync::ledger::Blank;
use std::sync::{Wait, ledger};
use std::thread;
use std::thread::Threads;
use std::time::{Clock, Duration};

/// One part for each seat, and one for the desk.
const PARTS: u64 = 1 << 32;

/// The group of those who wait for a sum.
const SUMS: u32 = 5;

/// A group for which no sum is.
const OTHERS: u32 = 6;

/// A number that was added, and the sum with it.
#[derive(Clone, Copy, Drop)]
struct Added {
    number: u32,
    sum: u64,
}

/// Adds up numbers. It refuses 0.
#[derive(Drop)]
struct Adder {
    sum: u64,
    history: Vec<Added>,
    ghost short: { vec_len history ≤ 4294967294 },
}

impl Adder {
    fn new(alloc: Global) -> Adder
        ensures { vec_len result.history ≡ 0 }
    {
        Adder {
            sum: 0,
            history: Vec::new(alloc),
        }
    }
}

impl Recorded for Adder {
    type Step = u32;

    type Entry = Added;

    /// The sum after the step.
    type Given = u64;

    type Fault = FaultKind;

    /// A group.
    type Awaited = u32;

    ghost history = { λ a. a.history.items };

    ghost step_of = { λ added. added.number };

    ghost kind_of = { λ kind. kind };

    ghost sound = { λ a. length a.history.items ≤ 4294967294 };

    ghost takes = { λ _ _ added sum _. sum ≡ added.sum };

    ghost may_refuse = { λ _ _ _. ⊤ };

    ghost alike = { λ one other. one.history.items ≡ other.history.items };

    ghost waits_in = { λ group. group };

    ghost frees = { λ _. Group 5 ∷ [] };

    fn step(&mut self, _alloc: Global, step: u32) -> Result<Entered<Added, u64>, FaultKind> {
        if self.history.len() >= 4_294_967_294 {
            return Err(FaultKind::HistoryFull);
        }
        if step == 0 {
            return Err(FaultKind::Step);
        }
        let added = Added {
            number: step,
            sum: self.sum.saturating_add(step as u64),
        };
        if self.history.push(added).is_err() {
            return Err(FaultKind::OutOfMemory);
        }
        self.sum = added.sum;
        Ok(Entered {
            entry: added,
            given: added.sum,
        })
    }

    fn len(&self) -> u32 {
        self.history.len() as u32
    }

    fn is_entry(&self, index: usize, entry: &Added) -> bool {
        if index >= self.history.len() {
            return false;
        }
        let kept = self.history[index];
        kept.number == entry.number && kept.sum == entry.sum
    }

    fn share(entry: &Added) -> Added {
        *entry
    }

    fn kind(fault: &FaultKind) -> FaultKind {
        *fault
    }

    fn out_of_memory() -> FaultKind {
        FaultKind::OutOfMemory
    }

    fn group_of(awaited: &u32) -> u32 {
        *awaited
    }

    fn freed_at(_entry: &Added, index: usize) -> Option<Freed> {
        match index {
            0 => Some(Freed::Group(SUMS)),
            _ => None,
        }
    }

    fn is_sound(&self) {
        let _history = &self.history;
    }

    ghost alike_itself = { λ _. refl };
}

/// How many entries there are at the close, the opening counted.
fn close_two<L: ledger::Ledger>(
    alloc: Global,
    office: Office<Adder, L>,
    one: Pass<Added, L>,
    two: Pass<Added, L>,
) -> Option<u32> {
    let mut passes = Passes::new(alloc);
    if passes.push(one).is_err() || passes.push(two).is_err() {
        return None;
    }
    match office.close(passes) {
        Ok(history) => Some(history.len()),
        Err(_) => None,
    }
}

/// Whether a step that the adder refuses is refused with its own fault,
/// and one of a seat that was never opened is the first entry.
fn enters_for_nobody<L: ledger::Ledger>(alloc: Global, desk: &mut Desk<Adder, L>) -> bool {
    let refused = desk.apply(alloc, 1, 0).err();
    match desk.apply(alloc, 2, 1) {
        Ok(answered) => refused == Some(FaultKind::Step) && answered.receipt.number == 1,
        Err(_) => false,
    }
}

/// Whether an entry is added of nobody, and one of a seat, whose pass gets no receipt of it.
fn adds_without_receipt<L: ledger::Ledger>(
    alloc: Global,
    desk: &mut Desk<Adder, L>,
    seat: u32,
) -> bool {
    enters_for_nobody(alloc, desk) && desk.apply(alloc, seat, 1).is_ok()
}

/// Whether the close is refused, which returns desk and passes.
fn stays_open<L: ledger::Ledger>(office: Office<Adder, L>, passes: Passes<Added, L>) -> bool {
    match office.close(passes) {
        Ok(_) => false,
        Err(refused) => {
            let (desk, passes, fault) = refused;
            fault == OfficeFault::ForeignPass(3) && desk.len() == 3 && passes.len() == 1
        }
    }
}

fn alone<L: ledger::Ledger>(alloc: Global, pass: Pass<Added, L>) -> Option<Passes<Added, L>> {
    let mut passes = Passes::new(alloc);
    match passes.push(pass) {
        Ok(()) => Some(passes),
        Err(_) => None,
    }
}

fn is_refused_with<L: ledger::Ledger>(
    alloc: Global,
    mut desk: Desk<Adder, L>,
    pass: Pass<Added, L>,
) -> bool {
    let added = adds_without_receipt(alloc, &mut desk, pass.seat());
    match alone(alloc, pass) {
        Some(passes) => {
            let open = stays_open(Office::new(desk), passes);
            added && open
        }
        None => false,
    }
}

/// An entry of a seat that its pass has no receipt of.
fn foreign<L: ledger::Ledger>(alloc: Global, blank: Blank) -> bool
    requires name { blank.name ≡ L.name }
    requires parts { (blank.parts ≡ L.parts) × (blank.parts ≡ 4294967296) }
{
    let mut desk: Desk<Adder, L> = Desk::new(alloc, Adder::new(alloc), blank);
    match desk.open_seat(alloc) {
        Ok(pass) => is_refused_with(alloc, desk, pass),
        Err(_) => false,
    }
}

/// An entry of a seat that its pass has no receipt of: the close is refused.
pub fn a_foreign_receipt(alloc: Global) -> bool {
    foreign::<Brand>(alloc, Blank::new(PARTS))
}

/// Waits until the sum is 7, and adds 1. Once its look answered `Wait`, the flag says so.
fn wait_and_add<L: ledger::Ledger, R: Wait>(
    rt: &R,
    alloc: Global,
    office: &Office<Adder, L>,
    mut pass: Pass<Added, L>,
    waits: &AtomicBool,
) -> (Pass<Added, L>, bool) {
    let look = |adder: &Adder| {
        if adder.sum < 7 {
            waits.store(true, Ordering::SeqCst);
            Turn::Wait
        } else {
            Turn::Answer
        }
    };
    let answered = office.wait_call(rt, alloc, &mut pass, SUMS, look, 1);
    (pass, matches!(answered, Ok(Some(_))))
}

/// Whether somebody waits, within 1,000,000 turns of 100 microseconds.
fn is_waited_for<R: Clock>(rt: &R, waits: &AtomicBool) -> bool {
    for _ in 0..1_000_000u32 {
        if waits.load(Ordering::SeqCst) {
            return true;
        }
        thread::sleep(rt, Duration::from_micros(100));
    }
    false
}

/// Adds 7 once the other waits: who is answered `Wait` has the lock until it does.
/// Where it doesn't wait in time the 7 is added all the same, so that both end.
fn add<L: ledger::Ledger, R: Wait + Clock>(
    rt: &R,
    alloc: Global,
    office: &Office<Adder, L>,
    mut pass: Pass<Added, L>,
    waits: &AtomicBool,
) -> (Pass<Added, L>, bool) {
    let waited = is_waited_for(rt, waits);
    let answered = office.call(rt, alloc, &mut pass, 7);
    (pass, waited && answered.is_ok())
}

/// The sum, where it is above so much; it is looked for within no time.
fn sum_above<L: ledger::Ledger, R: Wait + Clock>(
    rt: &R,
    office: &Office<Adder, L>,
    pass: &Pass<Added, L>,
    least: u64,
) -> Result<Waited<u64>, OfficeFault<FaultKind>> {
    office.wait_for(rt, pass, SUMS, Duration::ZERO, |adder: &Adder| {
        if adder.sum > least {
            Ok(Some(adder.sum))
        } else {
            Ok(None)
        }
    })
}

/// Whether the sum is found, isn't within no time where it lacks,
/// and isn't looked for once the office is finished.
fn looks<L: ledger::Ledger, R: Wait + Clock>(
    rt: &R,
    office: &Office<Adder, L>,
    pass: &Pass<Added, L>,
) -> bool {
    let found = sum_above(rt, office, pass, 7) == Ok(Waited::Found(8));
    let elapsed = sum_above(rt, office, pass, 8) == Ok(Waited::Elapsed);
    office.finish(rt);
    let finished = sum_above(rt, office, pass, 7) == Ok(Waited::Finished);
    found && elapsed && finished
}

/// The passes of two seats of which one waits for the other, and whether each was answered so.
fn waited<L: ledger::Ledger + Send + Sync, R: Threads + Wait + Clock + Sync>(
    rt: &R,
    alloc: Global,
    office: &Office<Adder, L>,
    one: Pass<Added, L>,
    two: Pass<Added, L>,
) -> (Pass<Added, L>, Pass<Added, L>, bool) {
    let waits = AtomicBool::new(false);
    let ((one, woken), (two, added)) = thread::join(
        rt,
        || wait_and_add(rt, alloc, office, one, &waits),
        || add(rt, alloc, office, two, &waits),
    );
    let seen = one.seen() == 3 && two.seen() == 2;
    let looked = looks(rt, office, &one);
    let (one, answered) = wait_and_add(rt, alloc, office, one, &waits);
    (one, two, woken && added && seen && looked && !answered)
}

fn two_seats<L: ledger::Ledger, R: Wait>(
    rt: &R,
    alloc: Global,
    office: &Office<Adder, L>,
) -> Option<(Pass<Added, L>, Pass<Added, L>)> {
    let one = office.open_seat(rt, alloc).ok()?;
    match office.open_seat(rt, alloc) {
        Ok(two) => Some((one, two)),
        Err(_) => None,
    }
}

fn waiting<L: ledger::Ledger + Send + Sync, R: Threads + Wait + Clock + Sync>(
    rt: &R,
    alloc: Global,
    blank: Blank,
) -> bool
    requires name { blank.name ≡ L.name }
    requires parts { (blank.parts ≡ L.parts) × (blank.parts ≡ 4294967296) }
{
    let office: Office<Adder, L> = Office::new(Desk::new(alloc, Adder::new(alloc), blank));
    match two_seats(rt, alloc, &office) {
        Some((one, two)) => {
            let (one, two, answered) = waited(rt, alloc, &office, one, two);
            let closed = close_two(alloc, office, one, two) == Some(3);
            answered && closed
        }
        None => false,
    }
}

/// A call that waits is answered once another has made it so.
pub fn a_waiting_call<R: Threads + Wait + Clock + Sync>(rt: &R, alloc: Global) -> bool {
    waiting::<Brand, _>(rt, alloc, Blank::new(PARTS))
}

/// Waits among the others until the office is finished, and counts how often it looks.
fn wait_with_others<L: ledger::Ledger, R: Wait>(
    rt: &R,
    alloc: Global,
    office: &Office<Adder, L>,
    mut pass: Pass<Added, L>,
    looks: &AtomicU64,
) -> (Pass<Added, L>, bool) {
    let look = |_: &Adder| {
        looks.fetch_add(1, Ordering::SeqCst);
        Turn::Wait
    };
    let answered = office.wait_call(rt, alloc, &mut pass, OTHERS, look, 1);
    (pass, matches!(answered, Ok(None)))
}

/// Whether somebody has looked, within 1,000,000 turns of 100 microseconds.
fn has_looked<R: Clock>(rt: &R, looks: &AtomicU64) -> bool {
    for _ in 0..1_000_000u32 {
        if looks.load(Ordering::SeqCst) > 0 {
            return true;
        }
        thread::sleep(rt, Duration::from_micros(100));
    }
    false
}

/// Adds 1 a hundred times once the other has looked, and finishes the office.
fn add_often<L: ledger::Ledger, R: Wait + Clock>(
    rt: &R,
    alloc: Global,
    office: &Office<Adder, L>,
    mut pass: Pass<Added, L>,
    looks: &AtomicU64,
) -> (Pass<Added, L>, bool) {
    let mut added = has_looked(rt, looks);
    for _ in 0..100u32 {
        let answered = office.call(rt, alloc, &mut pass, 1);
        added = added && answered.is_ok();
    }
    office.finish(rt);
    (pass, added)
}

/// The passes of two seats, and whether one slept while the other added.
fn slept<L: ledger::Ledger + Send + Sync, R: Threads + Wait + Clock + Sync>(
    rt: &R,
    alloc: Global,
    office: &Office<Adder, L>,
    one: Pass<Added, L>,
    two: Pass<Added, L>,
) -> (Pass<Added, L>, Pass<Added, L>, bool) {
    let looks = AtomicU64::new(0);
    let ((one, ended), (two, added)) = thread::join(
        rt,
        || wait_with_others(rt, alloc, office, one, &looks),
        || add_often(rt, alloc, office, two, &looks),
    );
    let slept = looks.load(Ordering::SeqCst) == 1;
    (one, two, ended && added && slept)
}

fn sleeping<L: ledger::Ledger + Send + Sync, R: Threads + Wait + Clock + Sync>(
    rt: &R,
    alloc: Global,
    blank: Blank,
) -> bool
    requires name { blank.name ≡ L.name }
    requires parts { (blank.parts ≡ L.parts) × (blank.parts ≡ 4294967296) }
{
    let office: Office<Adder, L> = Office::new(Desk::new(alloc, Adder::new(alloc), blank));
    match two_seats(rt, alloc, &office) {
        Some((one, two)) => {
            let (one, two, slept) = slept(rt, alloc, &office, one, two);
            let closed = close_two(alloc, office, one, two) == Some(101);
            slept && closed
        }
        None => false,
    }
}

/// Who waits in a group that no step frees isn't woken by the steps, and is once the office is
/// finished.
pub fn a_call_in_another_group<R: Threads + Wait + Clock + Sync>(rt: &R, alloc: Global) -> bool {
    sleeping::<Brand, _>(rt, alloc, Blank::new(PARTS))
}

/// Refuses each step by a fault of the kind that the step names.
#[derive(Drop)]
struct Refuser;

impl Recorded for Refuser {
    type Step = FaultKind;

    type Entry = FaultKind;

    type Given = ();

    type Fault = FaultKind;

    type Awaited = ();

    ghost history = { λ _. [] };

    ghost step_of = { λ kind. kind };

    ghost kind_of = { λ kind. kind };

    ghost sound = { λ _. ⊤ };

    ghost takes = { λ _ _ _ _ _. ⊥ };

    ghost may_refuse = { λ _ step fault. fault ≡ step };

    ghost alike = { λ _ _. ⊤ };

    ghost waits_in = { λ _. 0 };

    ghost frees = { λ _. [] };

    fn step(
        &mut self,
        _alloc: Global,
        step: FaultKind,
    ) -> Result<Entered<FaultKind, ()>, FaultKind> {
        Err(step)
    }

    fn len(&self) -> u32 {
        0
    }

    fn is_entry(&self, _index: usize, _entry: &FaultKind) -> bool {
        false
    }

    fn share(entry: &FaultKind) -> FaultKind {
        *entry
    }

    fn kind(fault: &FaultKind) -> FaultKind {
        *fault
    }

    fn out_of_memory() -> FaultKind {
        FaultKind::OutOfMemory
    }

    fn group_of(_awaited: &()) -> u32 {
        0
    }

    fn freed_at(_entry: &FaultKind, _index: usize) -> Option<Freed> {
        None
    }

    fn is_sound(&self) {}

    ghost alike_itself = { λ _. tt };
}

/// How a call of a step of each kind is refused: without waiting, after a wait, and for a look.
type Refusals = [Option<OfficeFault<FaultKind>>; 3];

/// How the office refuses a step of a kind.
fn refusals<L: ledger::Ledger, R: Wait + Clock>(
    rt: &R,
    alloc: Global,
    office: &Office<Refuser, L>,
    pass: &mut Pass<FaultKind, L>,
    kind: FaultKind,
) -> Refusals {
    let called = office.call(rt, alloc, pass, kind).err();
    let answers = |_: &Refuser| Turn::Answer;
    let waited = office.wait_call(rt, alloc, pass, (), answers, kind).err();
    let look = |_: &Refuser| -> Result<Option<()>, FaultKind> { Err(kind) };
    let looked = office.wait_for(rt, pass, (), Duration::ZERO, look).err();
    [called, waited, looked]
}

const REFUSED: [(FaultKind, OfficeFault<FaultKind>); 3] = [
    (FaultKind::HistoryFull, OfficeFault::HistoryFull),
    (FaultKind::OutOfMemory, OfficeFault::OutOfMemory),
    (FaultKind::Step, OfficeFault::Core(FaultKind::Step)),
];

/// Whether each kind of fault is refused by its own refusal.
fn refuses_each<L: ledger::Ledger, R: Wait + Clock>(
    rt: &R,
    alloc: Global,
    office: &Office<Refuser, L>,
    pass: &mut Pass<FaultKind, L>,
) -> bool {
    for (kind, fault) in REFUSED {
        if refusals(rt, alloc, office, pass, kind) != [Some(fault); 3] {
            return false;
        }
    }
    true
}

/// Whether each kind of fault is refused by its own refusal, and the pass stays as it was opened.
fn refusing<L: ledger::Ledger, R: Wait + Clock>(rt: &R, alloc: Global, blank: Blank) -> bool
    requires name { blank.name ≡ L.name }
    requires parts { (blank.parts ≡ L.parts) × (blank.parts ≡ 4294967296) }
{
    let office: Office<Refuser, L> = Office::new(Desk::new(alloc, Refuser, blank));
    match office.open_seat(rt, alloc) {
        Ok(mut pass) => {
            refuses_each(rt, alloc, &office, &mut pass)
                && pass.seat() == 1
                && pass.seen() == 0
                && pass.receipts().is_empty()
        }
        Err(_) => false,
    }
}

/// How an office refuses a step that is refused by a fault of each kind.
pub fn refused_steps<R: Wait + Clock>(rt: &R, alloc: Global) -> bool {
    refusing::<Brand, _>(rt, alloc, Blank::new(PARTS))
}

/// A fault of a step, with a text.
#[derive(Debug, Drop)]
struct Cause;

impl std::fmt::Display for Cause {
    fn fmt<W: std::fmt::Write>(&self, f: &mut std::fmt::Formatter<W>) -> std::fmt::Result {
        f.write_str("C7 TimeBack")
    }
}

fn texts_of(alloc: Global) -> Option<String> {
    let foreign: OfficeFault<Cause> = OfficeFault::ForeignPass(2);
    format!(in alloc; "{foreign}, {}", OfficeFault::Core(Cause)).ok()
}

fn is(text: &Option<String>, wanted: &str) -> bool {
    match text {
        Some(text) => text.as_str() == wanted,
        None => false,
    }
}

/// The texts of what an office refuses.
pub fn texts(alloc: Global) -> bool {
    is(&texts_of(alloc), "O1 ForeignPass 2, O4 Core C7 TimeBack")
}
