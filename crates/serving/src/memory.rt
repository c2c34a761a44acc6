//! How much memory the server may have.

use crate::fault::ServingFault;
use crate::staff::{Entrance, Leaver};
use desk_core::{Awaited, ClusterFault, KeptEntry, Running};
use desk_lock::{Office, Pass, Waited};
use std::fs;
use std::net::{Net, TcpListener, TcpStream};
use std::sync::{Wait, ledger};
use std::time::{Clock, Duration};

/// Where the system says how much memory the process has, in pages.
const PAGES: &str = "/proc/self/statm";

/// So many pages, of 4,096 bytes each, are a MiB.
const PAGES_OF_ONE: u64 = 256;

/// How much memory the process may have.
#[derive(Clone, Copy, Drop)]
pub struct MemoryLimit<'a> {
    /// What reads how much it has.
    pub rt: &'a HostRuntime,
    /// With so many MiB of resident memory the server ends; with 0 it doesn't.
    pub mebibytes: u64,
}

/// The resident memory, in MiB, by the second number of the text; 0 where it has none.
fn resident_in(text: &str) -> u64 {
    match text.split(' ').nth(1) {
        Some(pages) => pages.parse::<u64>().unwrap_or(0) / PAGES_OF_ONE,
        None => 0,
    }
}

impl<'a> MemoryLimit<'a> {
    /// Whether it is reached. It isn't where the system doesn't say.
    fn is_reached(&self) -> bool {
        match fs::read_to_string(self.rt, PAGES) {
            Ok(text) => resident_in(text.as_str()) >= self.mebibytes,
            Err(_) => false,
        }
    }
}

/// Looks each second how much memory there is, until the office is finished; where the limit is
/// reached, the server ends.
pub(crate) fn keep_within<
    D: Running,
    L: ledger::Ledger,
    R: Net<Listener = TcpListener, Stream = TcpStream> + Wait + Clock + Eprint,
>(
    rt: &R,
    office: &Office<D, L>,
    pass: Pass<KeptEntry, L>,
    entrance: Entrance<'_>,
    limit: MemoryLimit<'_>,
) -> Leaver<L> {
    for _ in rt.forever() {
        if limit.is_reached() {
            let fault = ServingFault::Memory(limit.mebibytes);
            office.finish(rt);
            entrance.close(rt, &fault);
            return Leaver {
                pass,
                fault: Some(fault),
            };
        }
        let look = |_: &D| -> Result<Option<()>, ClusterFault> { Ok(None) };
        match office.wait_for(rt, &pass, Awaited::time(), Duration::from_secs(1), look) {
            Ok(Waited::Elapsed) => {}
            _ => break,
        }
    }
    Leaver { pass, fault: None }
}
