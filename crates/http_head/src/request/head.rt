//! Heads.

ghost use Rattle.std.specs.Prelude.{◌≡◌, ◌<◌, ℕ, List, ◌++◌, OnOk, IfOk, IsErrOf};
ghost use Rattle.http_head.specs.Found.{FindsHead};
ghost use Rattle.http_head.specs.declared.request.fault.ConnectionFault.TheVariants.{Failed};

use crate::request::fault::ConnectionFault;
use crate::request::inlet::{Inlet, Section};
use crate::request::part::{Part, next_part};
use crate::request::unread::Unread;
use crate::{Place, Plan, RequestFault, judge_head};

/// What is at the front of the input.
#[derive(Clone, Copy, Drop)]
pub enum Head {
    /// A head that was taken, and how its request goes on.
    Planned(Plan),
    Refused(RequestFault),
    /// The end of the input, with nothing before it but whole empty lines.
    Over,
}

/// Reads until a head is there, and takes it, or until one can't come.
fn take_head<I: Inlet>(inlet: &mut I, unread: &mut Unread) -> Result<Head, ConnectionFault>
    requires { I.faults inlet.old < u64.MAX }
    ensures found { (more : List ℕ) × I.reads inlet.old more inlet.new
        × FindsHead result (unread.old ++ more) (I.ended inlet.new) unread.new }
    ensures sound { OnOk result (I.faults inlet.new ≡ I.faults inlet.old) }
    ensures link { IsErrOf result Failed → I.faults inlet.old < I.faults inlet.new }
{
    let len = match next_part(inlet, unread, Place::Front) {
        Ok(Part::Cut(len)) => len,
        Ok(Part::Overlong) => return Ok(Head::Refused(RequestFault::BadHead)),
        Ok(Part::Unended(Place::Front)) => return Ok(Head::Over),
        Ok(Part::Unended(_)) => return Ok(Head::Refused(RequestFault::BadHead)),
        Err(fault) => return Err(fault),
    };
    match judge_head(&unread.as_slice()[..len]) {
        Ok(plan) => {
            unread.skip(len);
            Ok(Head::Planned(plan))
        }
        Err(fault) => Ok(Head::Refused(fault)),
    }
}

/// Reads until a head is there, and takes it, or until one can't come. What is unread counts as
/// read of the head.
pub fn next_head<I: Inlet>(inlet: &mut I, unread: &mut Unread) -> Result<Head, ConnectionFault>
    requires { I.faults inlet.old < u64.MAX }
    ensures found { (more : List ℕ) × I.reads inlet.old more inlet.new
        × FindsHead result (unread.old ++ more) (I.ended inlet.new) unread.new }
    ensures sound { OnOk result (I.faults inlet.new ≡ I.faults inlet.old) }
    ensures link { IsErrOf result Failed → I.faults inlet.old < I.faults inlet.new }
{
    unread.begin(inlet, Section::Head);
    take_head(inlet, unread)
}
