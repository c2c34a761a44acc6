//! A whole input: frames of calls in, frames of events out.

ghost use Rattle.std.specs.Prelude.{◌≡◌, ◌<◌, length, vec_len, List, ℕ, Option, None, Some, IfOk, IfSome, OnErr};
ghost use Rattle.std.specs.Io.KnownBytes.{Appends};
ghost use Rattle.frame_record.specs.Writes.{AppendsFront};
ghost use Rattle.frame_record.specs.declared.fault.FrameFault.{FrameFault};
ghost use Rattle.frame_record.specs.Records.{end_of};
ghost use Rattle.call_replies.specs.Replies.{IsAnswer, fault_in, first_master};

use crate::fault::Stop;
use crate::reply::answer_all;
use frame_record::{FrameFault, Reader, fault_stays, first_records_stay, read_some};
use master_core::{ConfiguredAgents, Master};
use names_core::Run;
use std::alloc::{AllocError, Global};
use std::io::{self, ErrorKind, Read, Write};

/// How many bytes are read at a time, at most.
const PIECE: usize = 4_096;

fn new_buffer(alloc: Global) -> Result<Vec<u8>, AllocError>
    ensures { IfOk result (λ buffer. 0 < vec_len buffer) }
{
    vec![in alloc; 0u8; PIECE]
}

/// The fault at the end of the input, if any.
fn fault_at_end(frames: &Reader) -> Option<FrameFault>
    ensures { result ≡ fault_in (end_of frames.now) }
{
    match frames.end() {
        Ok(()) => None,
        Err(fault) => Some(fault),
    }
}

/// A master that begins run 1, without agents.
fn first_master(alloc: Global) -> Result<Master, Stop>
    ensures { IfOk result (λ master. master ≡ first_master) }
{
    let config = ConfiguredAgents::new(alloc);
    match Master::start(alloc, Run::new(1), &config) {
        Ok((master, _greetings)) => Ok(master),
        Err(_) => Err(Stop::MasterMemory),
    }
}

/// Answers the calls that a reader returns, read through this buffer, by a master that took no call
/// yet.
fn answer_input<R: Read, W: Write>(
    alloc: Global,
    reader: &mut R,
    writer: &mut W,
    buffer: &mut [u8],
    master: &mut Master,
) -> Result<Option<FrameFault>, Stop>
    requires buffer { 0 < length buffer.old }
    requires master { master.old ≡ first_master }
    ensures ok { IfOk result (λ fault. IfSome (R.remaining reader.old)
        (λ input. (text : List ℕ) × IsAnswer input text fault
        × Appends (W.contents writer.old) (W.contents writer.new) text)) }
    ensures err { OnErr result (IfSome (R.remaining reader.old)
        (λ input. (text : List ℕ) (fault : Option FrameFault) → IsAnswer input text fault
        → AppendsFront (W.contents writer.old) (W.contents writer.new) text)) }
{
    first_records_stay();
    fault_stays();
    let mut frames = Reader::new(alloc);
    for _ in 0..u64::MAX {
        let count = match read_some(reader, buffer) {
            Ok(count) => count,
            Err(e) => return Err(Stop::Device(e)),
        };
        if count == 0 {
            return Ok(fault_at_end(&frames));
        }
        let fed = match frames.feed(alloc, &buffer[..count]) {
            Ok(fed) => fed,
            Err(_) => return Err(Stop::FrameMemory),
        };
        if let Err(stop) = answer_all(alloc, master, &fed.records, writer) {
            return Err(stop);
        }
        if let Some(fault) = fed.fault {
            return Ok(Some(fault));
        }
    }
    Err(Stop::Device(io::Error::from(ErrorKind::Other)))
}

/// Answers the calls that a reader returns, in run 1 and without agents, each as soon as its frame
/// is whole: it writes the frames of all events in order. A call comes on the open stream of its
/// framework, if there is one. A record that is no call, or whose call is refused, is answered by
/// an ERROR event with the refusal's text. It returns the fault of a frame that ended the input, if
/// any: `F1 BadSize`, `F2 TooLong`, or `F3 Cut` where the input ends within a frame. `Err` is want
/// of memory in a frame, a call or the master (`F4`, `J10`, `M5`), or a read or write that failed
/// (`Z2`).
pub fn calls<R: Read, W: Write>(
    alloc: Global,
    reader: &mut R,
    writer: &mut W,
) -> Result<Option<FrameFault>, Stop>
    // What is written is the answer to the input,
    ensures ok { IfOk result (λ fault. IfSome (R.remaining reader.old)
        (λ input. (text : List ℕ) × IsAnswer input text fault
        × Appends (W.contents writer.old) (W.contents writer.new) text)) }
    // or a beginning of it, where memory, the reader or the writer fail.
    ensures err { OnErr result (IfSome (R.remaining reader.old)
        (λ input. (text : List ℕ) (fault : Option FrameFault) → IsAnswer input text fault
        → AppendsFront (W.contents writer.old) (W.contents writer.new) text)) }
{
    let mut buffer = match new_buffer(alloc) {
        Ok(buffer) => buffer,
        Err(_) => return Err(Stop::FrameMemory),
    };
    let mut master = match first_master(alloc) {
        Ok(master) => master,
        Err(stop) => return Err(stop),
    };
    let answered = answer_input(alloc, reader, writer, &mut buffer, &mut master);
    drop(master);
    answered
}
