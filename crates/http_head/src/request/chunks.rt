//! The chunks of a body (RFC 9112, section 7.1).

ghost use Rattle.std.specs.Prelude.{◌≡◌, ◌<◌, ◌≤◌, ◌+◌, ℕ, List, ◌++◌, vec_len, true, false, Ok, OnOk, IsErrOf};
ghost use Rattle.http_head.specs.Found.{FindsChunk, FindsLine, FindsLineEnd, FindsTrailers};
ghost use Rattle.http_head.specs.declared.request.fault.ConnectionFault.TheVariants.{Failed};

use crate::request::body::take_exact;
use crate::request::fault::ConnectionFault;
use crate::request::inlet::Inlet;
use crate::request::part::{Part, next_part};
use crate::request::unread::Unread;
use crate::{MAX_BODY, Place, RequestFault, are_trailers, judge_line};

/// What one step over a body in chunks came to.
#[derive(Clone, Copy, Drop)]
pub enum Step {
    /// A chunk with data, which were added to the body.
    More,
    /// The last chunk, and the trailers.
    Last,
    Refused(RequestFault),
}

/// Takes the line of a chunk, and returns its size. `None` where there is none.
fn take_line<I: Inlet>(inlet: &mut I, unread: &mut Unread) -> Result<Option<u64>, ConnectionFault>
    requires { I.faults inlet.old < u64.MAX }
    ensures found { (more : List ℕ) × I.reads inlet.old more inlet.new
        × FindsLine result (unread.old ++ more) (I.ended inlet.new) unread.new }
    ensures sound { OnOk result (I.faults inlet.new ≡ I.faults inlet.old) }
    ensures link { IsErrOf result Failed → I.faults inlet.old < I.faults inlet.new }
{
    match next_part(inlet, unread, Place::Line) {
        Ok(Part::Cut(len)) => match judge_line(&unread.as_slice()[..len]) {
            Some(size) => {
                unread.skip(len);
                Ok(Some(size))
            }
            None => Ok(None),
        },
        Ok(_) => Ok(None),
        Err(fault) => Err(fault),
    }
}

/// Takes the trailers, and says whether they are there.
fn take_trailers<I: Inlet>(inlet: &mut I, unread: &mut Unread) -> Result<bool, ConnectionFault>
    requires { I.faults inlet.old < u64.MAX }
    ensures found { (more : List ℕ) × I.reads inlet.old more inlet.new
        × FindsTrailers result (unread.old ++ more) (I.ended inlet.new) unread.new }
    ensures sound { OnOk result (I.faults inlet.new ≡ I.faults inlet.old) }
    ensures link { IsErrOf result Failed → I.faults inlet.old < I.faults inlet.new }
{
    match next_part(inlet, unread, Place::Start) {
        Ok(Part::Cut(len)) => {
            if !are_trailers(&unread.as_slice()[..len]) {
                return Ok(false);
            }
            unread.skip(len);
            Ok(true)
        }
        Ok(_) => Ok(false),
        Err(fault) => Err(fault),
    }
}

/// Takes the line end after the data of a chunk, and says whether it is there.
fn take_line_end<I: Inlet>(inlet: &mut I, unread: &mut Unread) -> Result<bool, ConnectionFault>
    requires { I.faults inlet.old < u64.MAX }
    ensures found { (more : List ℕ) × I.reads inlet.old more inlet.new
        × FindsLineEnd result (unread.old ++ more) (I.ended inlet.new) unread.new }
    ensures sound { OnOk result (I.faults inlet.new ≡ I.faults inlet.old) }
    ensures link { IsErrOf result Failed → I.faults inlet.old < I.faults inlet.new }
{
    while unread.as_slice().len() < 2 {
        match unread.fill(inlet) {
            Ok(true) => return Ok(false),
            Ok(false) => {}
            Err(fault) => return Err(fault),
        }
    }
    let bytes = unread.as_slice();
    if bytes[0] != b'\r' {
        return Ok(false);
    }
    if bytes[1] != b'\n' {
        return Ok(false);
    }
    unread.skip(2);
    Ok(true)
}

/// Takes the next chunk and adds its data to the body, or takes the last one and the trailers.
pub fn next_chunk<I: Inlet>(
    inlet: &mut I,
    unread: &mut Unread,
    body: &mut Vec<u8>,
) -> Result<Step, ConnectionFault>
    requires countable { I.faults inlet.old < u64.MAX }
    requires within { vec_len body.old ≤ 1048576 }
    ensures found { (more : List ℕ) × I.reads inlet.old more inlet.new
        × FindsChunk result (unread.old ++ more) (I.ended inlet.new)
        body.old.items body.new.items unread.new }
    ensures sound { OnOk result (I.faults inlet.new ≡ I.faults inlet.old) }
    ensures link { IsErrOf result Failed → I.faults inlet.old < I.faults inlet.new }
{
    let size = match take_line(inlet, unread) {
        Ok(Some(0)) => {
            return match take_trailers(inlet, unread) {
                Ok(true) => Ok(Step::Last),
                Ok(false) => Ok(Step::Refused(RequestFault::BadBody)),
                Err(fault) => Err(fault),
            };
        }
        Ok(Some(size)) => size,
        Ok(None) => return Ok(Step::Refused(RequestFault::BadBody)),
        Err(fault) => return Err(fault),
    };
    if size > (MAX_BODY - body.len()) as u64 {
        return Ok(Step::Refused(RequestFault::TooLong));
    }
    match take_exact(inlet, unread, body, size as usize) {
        Ok(true) => {}
        Ok(false) => return Ok(Step::Refused(RequestFault::BadBody)),
        Err(fault) => return Err(fault),
    }
    match take_line_end(inlet, unread) {
        Ok(true) => Ok(Step::More),
        Ok(false) => Ok(Step::Refused(RequestFault::BadBody)),
        Err(fault) => Err(fault),
    }
}
