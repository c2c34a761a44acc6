//! Bodies.

ghost use Rattle.std.specs.Prelude.{◌≡◌, ◌<◌, ◌≤◌, ℕ, List, ◌++◌, OnOk, IsErrOf};
ghost use Rattle.http_head.specs.Heads.{IsWithinLimit};
ghost use Rattle.http_head.specs.Found.{FindsBody, FindsData};
ghost use Rattle.http_head.specs.declared.request.fault.ConnectionFault.TheVariants.{Failed};

use crate::request::chunks::{Step, next_chunk};
use crate::request::fault::ConnectionFault;
use crate::request::inlet::{Inlet, Section};
use crate::request::unread::Unread;
use crate::{Body, RequestFault};
use std::alloc::Global;

/// Room for so many bytes of a body is asked for before they have come; for more it is asked for
/// as they come.
const ROOM: usize = 65_536;

/// What came of a body.
#[derive(Drop)]
pub enum Received {
    /// The body, which was taken.
    Whole(Vec<u8>),
    Refused(RequestFault),
}

/// Takes so many bytes of the input and adds them to the others, and says whether they came.
/// It asks room at once for the first 65,536 of them, and for the others as they come.
pub fn take_exact<I: Inlet>(
    inlet: &mut I,
    unread: &mut Unread,
    bytes: &mut Vec<u8>,
    count: usize,
) -> Result<bool, ConnectionFault>
    requires countable { I.faults inlet.old < u64.MAX }
    requires few { count ≤ 1048576 }
    ensures found { (more : List ℕ) × I.reads inlet.old more inlet.new
        × FindsData result count (unread.old ++ more) (I.ended inlet.new)
        bytes.old.items bytes.new.items unread.new }
    ensures sound { OnOk result (I.faults inlet.new ≡ I.faults inlet.old) }
    ensures link { IsErrOf result Failed → I.faults inlet.old < I.faults inlet.new }
{
    if bytes.reserve(count.min(ROOM)).is_err() {
        return Err(ConnectionFault::OutOfMemory);
    }
    let mut left = count;
    while unread.as_slice().len() < left {
        let there = unread.as_slice().len();
        match unread.move_to(bytes, there) {
            Ok(()) => left -= there,
            Err(_) => return Err(ConnectionFault::OutOfMemory),
        }
        match unread.fill(inlet) {
            Ok(true) => return Ok(false),
            Ok(false) => {}
            Err(fault) => return Err(fault),
        }
    }
    if unread.move_to(bytes, left).is_err() {
        return Err(ConnectionFault::OutOfMemory);
    }
    Ok(true)
}

/// Takes chunks up to the last one and the trailers.
fn read_chunks<I: Inlet>(
    alloc: Global,
    inlet: &mut I,
    unread: &mut Unread,
) -> Result<Received, ConnectionFault>
    requires countable { I.faults inlet.old < u64.MAX }
    ensures found { (more : List ℕ) × I.reads inlet.old more inlet.new
        × FindsBody result Body.Chunked (unread.old ++ more) (I.ended inlet.new) unread.new }
    ensures sound { OnOk result (I.faults inlet.new ≡ I.faults inlet.old) }
    ensures link { IsErrOf result Failed → I.faults inlet.old < I.faults inlet.new }
{
    let mut body = Vec::new(alloc);
    loop {
        match next_chunk(inlet, unread, &mut body) {
            Ok(Step::More) => {}
            Ok(Step::Last) => return Ok(Received::Whole(body)),
            Ok(Step::Refused(fault)) => return Ok(Received::Refused(fault)),
            Err(fault) => return Err(fault),
        }
    }
}

fn read_sized<I: Inlet>(
    alloc: Global,
    inlet: &mut I,
    unread: &mut Unread,
    count: usize,
) -> Result<Received, ConnectionFault>
    requires countable { I.faults inlet.old < u64.MAX }
    requires few { count ≤ 1048576 }
    ensures found { (more : List ℕ) × I.reads inlet.old more inlet.new
        × FindsBody result (Body.Sized count) (unread.old ++ more) (I.ended inlet.new) unread.new }
    ensures sound { OnOk result (I.faults inlet.new ≡ I.faults inlet.old) }
    ensures link { IsErrOf result Failed → I.faults inlet.old < I.faults inlet.new }
{
    let mut body = Vec::new(alloc);
    match take_exact(inlet, unread, &mut body, count) {
        Ok(true) => Ok(Received::Whole(body)),
        Ok(false) => Ok(Received::Refused(RequestFault::BadBody)),
        Err(fault) => Err(fault),
    }
}

/// Reads a body that comes so until it is there whole, and takes it, or until it is refused.
fn take_body<I: Inlet>(
    alloc: Global,
    inlet: &mut I,
    unread: &mut Unread,
    body: Body,
) -> Result<Received, ConnectionFault>
    requires countable { I.faults inlet.old < u64.MAX }
    requires limit { IsWithinLimit body }
    ensures found { (more : List ℕ) × I.reads inlet.old more inlet.new
        × FindsBody result body (unread.old ++ more) (I.ended inlet.new) unread.new }
    ensures sound { OnOk result (I.faults inlet.new ≡ I.faults inlet.old) }
    ensures link { IsErrOf result Failed → I.faults inlet.old < I.faults inlet.new }
{
    match body {
        Body::Sized(count) => read_sized(alloc, inlet, unread, count),
        Body::Chunked => read_chunks(alloc, inlet, unread),
    }
}

/// Reads a body that comes so until it is there whole, and takes it, or until it is refused.
/// Nothing after it is taken. What is unread counts as read of the body.
pub fn read_body<I: Inlet>(
    alloc: Global,
    inlet: &mut I,
    unread: &mut Unread,
    body: Body,
) -> Result<Received, ConnectionFault>
    requires countable { I.faults inlet.old < u64.MAX }
    requires limit { IsWithinLimit body }
    ensures found { (more : List ℕ) × I.reads inlet.old more inlet.new
        × FindsBody result body (unread.old ++ more) (I.ended inlet.new) unread.new }
    ensures sound { OnOk result (I.faults inlet.new ≡ I.faults inlet.old) }
    ensures link { IsErrOf result Failed → I.faults inlet.old < I.faults inlet.new }
{
    unread.begin(inlet, Section::Body);
    take_body(alloc, inlet, unread, body)
}
