//! An office's refusals, as a client receives them.

ghost use Rattle.std.specs.Prelude.{◌≡◌};
ghost use Rattle.http_serve.specs.Answers.{bench_fault, step_fault};

use desk_core::ClusterFault;
use desk_lock::OfficeFault;
use http_door::BenchFault;

fn step_fault(fault: ClusterFault) -> BenchFault
    ensures { result ≡ step_fault fault }
{
    match fault {
        ClusterFault::MasterDown => BenchFault::MasterDown,
        ClusterFault::HistoryFull => BenchFault::HistoryFull,
        ClusterFault::OutOfMemory => BenchFault::OutOfMemory,
        _ => BenchFault::NoSuchMail,
    }
}

/// What an office's refusal of a call means to a client. The refusals of agents and of moments,
/// which no call meets, are C1 too.
pub fn bench_fault(fault: OfficeFault<ClusterFault>) -> BenchFault
    ensures { result ≡ bench_fault fault }
{
    match fault {
        OfficeFault::ForeignPass(_) => BenchFault::ForeignPass,
        OfficeFault::HistoryFull => BenchFault::HistoryFull,
        OfficeFault::OutOfMemory => BenchFault::OutOfMemory,
        OfficeFault::Core(fault) => step_fault(fault),
        OfficeFault::SeatsSpent => BenchFault::SeatsSpent,
    }
}
