//! Why a request is refused.

ghost use Rattle.std.specs.Prelude.{◌≡◌};
ghost use Rattle.http_door.specs.Refusals.{master_status, bench_text, bench_status, refusal_text, refusal_status};

use call_json::CallFault;
use http_head::{RequestFault, Status};
use messages::MasterRefusal;

/// Why a bench doesn't do what a call asks.
#[derive(Clone, Copy, Debug, Drop, PartialEq, Eq)]
pub enum BenchFault {
    /// The master refuses.
    Master(MasterRefusal),
    /// The master ran out of memory.
    MasterOutOfMemory,
    /// No master is up.
    MasterDown,
    /// The history takes no further entry.
    HistoryFull,
    /// Memory ran out before the master received the call.
    OutOfMemory,
    /// The call was sent, and can't be delivered to the master.
    NoSuchMail,
    /// The bench isn't one of the history's.
    ForeignPass,
    /// No further bench can be opened.
    SeatsSpent,
    /// As many streams are open as may be at once.
    NoStreamLeft,
}

/// Why a request is refused.
#[derive(Clone, Copy, Debug, Drop, PartialEq, Eq)]
pub enum Refusal {
    /// Before its call was read.
    Request(RequestFault),
    /// Its body is no call.
    Call(CallFault),
    /// By the bench.
    Bench(BenchFault),
}

fn master_status(refusal: MasterRefusal) -> Status
    ensures { result ≡ master_status refusal }
{
    match refusal {
        MasterRefusal::NotSubscribed => Status::Forbidden,
        MasterRefusal::WrongStream => Status::BadRequest,
        MasterRefusal::NoSuchFramework => Status::BadRequest,
        MasterRefusal::LimitExceeded => Status::ServiceUnavailable,
        MasterRefusal::OtherRun => Status::ServiceUnavailable,
        MasterRefusal::OldSession => Status::ServiceUnavailable,
        MasterRefusal::Closed => Status::ServiceUnavailable,
        MasterRefusal::NotOpen => Status::ServiceUnavailable,
    }
}

impl BenchFault {
    /// Its code and name.
    #[tactic(auto, unfolding(crate::specs::Refusals::bench_text))]
    pub fn as_text(self) -> &'static str
        ensures { result.now ≡ bench_text self }
    {
        match self {
            BenchFault::Master(refusal) => refusal.as_text(),
            BenchFault::MasterOutOfMemory => "M5 OutOfMemory",
            BenchFault::MasterDown => "C2 MasterDown",
            BenchFault::HistoryFull => "C6 HistoryFull",
            BenchFault::OutOfMemory => "H8 OutOfMemory",
            BenchFault::NoSuchMail => "C1 NoSuchMail",
            BenchFault::ForeignPass => "O1 ForeignPass",
            BenchFault::SeatsSpent => "O5 SeatsSpent",
            BenchFault::NoStreamLeft => "H10 NoStreamLeft",
        }
    }

    /// The status that it is answered with.
    pub fn status(self) -> Status
        ensures { result ≡ bench_status self }
    {
        match self {
            BenchFault::Master(refusal) => master_status(refusal),
            _ => Status::ServiceUnavailable,
        }
    }
}

impl Refusal {
    /// Its code and name.
    pub fn as_text(self) -> &'static str
        ensures { result.now ≡ refusal_text self }
    {
        match self {
            Refusal::Request(fault) => fault.as_text(),
            Refusal::Call(fault) => fault.as_text(),
            Refusal::Bench(fault) => fault.as_text(),
        }
    }

    /// The status that it is answered with.
    pub fn status(self) -> Status
        ensures { result ≡ refusal_status self }
    {
        match self {
            Refusal::Request(fault) => fault.status(),
            Refusal::Call(CallFault::OutOfMemory) => Status::ServiceUnavailable,
            Refusal::Call(CallFault::Refused(_)) => Status::BadRequest,
            Refusal::Bench(fault) => fault.status(),
        }
    }
}
