//! What was read of a connection and not taken yet.

ghost use Rattle.std.specs.Prelude.{◌≡◌, ◌<◌, ◌≤◌, ◌+◌, ℕ, List, [], ◌++◌, length, take, drop, vec_len, true, false, Some, Ok, IfSome, IfOk, OnSome, OnOk, IfNone, IsErrOf};
ghost use Rattle.http_head.specs.declared.request.fault.ConnectionFault.TheVariants.{Failed};

use crate::request::fault::ConnectionFault;
use crate::request::inlet::{Inlet, Section};
use std::alloc::{AllocError, Global};
use std::marker::Model;

/// The most bytes of a read.
const PIECE: usize = 4096;

/// What was read and not taken yet.
#[derive(Drop)]
pub struct Unread {
    bytes: Vec<u8>,
    /// So many of the bytes were taken.
    taken: usize,
}

impl Model for Unread {
    ghost use Rattle.std.specs.Prelude.{ℕ, List, ◌≤◌, drop, vec_len};

    ghost Value = { List ℕ };

    ghost view = { λ u. drop u.taken u.bytes.items };

    ghost invariant = { λ u. u.taken ≤ vec_len u.bytes };
}

/// Removes the first bytes.
fn drop_front(bytes: &mut Vec<u8>, count: usize)
    requires { count ≤ vec_len bytes.old }
    ensures { bytes.new.items ≡ drop count bytes.old.items }
{
    let left = bytes.len() - count;
    bytes.rotate_left(count);
    bytes.truncate(left);
}

/// Reads once, into the bytes after the first `front` ones, and returns how many were read.
fn read_behind<I: Inlet>(inlet: &mut I, bytes: &mut [u8], front: usize) -> Option<usize>
    requires room { front < length bytes.old }
    requires countable { I.faults inlet.old < u64.MAX }
    ensures len { length bytes.new ≡ length bytes.old }
    ensures stays { take front bytes.new ≡ take front bytes.old }
    ensures within { IfSome result (λ n. front + n ≤ length bytes.new) }
    ensures came { IfSome result
        (λ n. (more : List ℕ) × I.reads inlet.old more inlet.new × (length more ≡ n)
        × (take (front + n) bytes.new ≡ take front bytes.old ++ more)) }
    ensures end { result ≡ Some 0 → I.ended inlet.new }
    ensures sound { OnSome result (I.faults inlet.new ≡ I.faults inlet.old) }
    ensures failed { IfNone result (I.reads inlet.old [] inlet.new
        × (I.faults inlet.old < I.faults inlet.new)) }
{
    inlet.read(&mut bytes[front..])
}

/// Reads once, directly after the bytes, so that none is copied, and returns how many were read.
fn read_more<I: Inlet>(inlet: &mut I, bytes: &mut Vec<u8>) -> Result<usize, ConnectionFault>
    requires { I.faults inlet.old < u64.MAX }
    ensures came { (more : List ℕ) × I.reads inlet.old more inlet.new
        × IfOk result (λ n. (length more ≡ n) × (bytes.new.items ≡ bytes.old.items ++ more)) }
    ensures end { result ≡ Ok 0 → I.ended inlet.new }
    ensures sound { OnOk result (I.faults inlet.new ≡ I.faults inlet.old) }
    ensures link { IsErrOf result Failed → I.faults inlet.old < I.faults inlet.new }
{
    let front = bytes.len();
    match bytes.resize(front + PIECE, 0) {
        Ok(()) => {}
        Err(_) => return Err(ConnectionFault::OutOfMemory),
    }
    match read_behind(inlet, bytes.as_mut_slice(), front) {
        Some(count) => {
            bytes.truncate(front + count);
            Ok(count)
        }
        None => {
            bytes.truncate(front);
            Err(ConnectionFault::Failed)
        }
    }
}

impl Unread {
    /// Nothing was read yet.
    pub fn new(alloc: Global) -> Unread
        ensures { result ≡ [] }
    {
        Unread {
            bytes: Vec::new(alloc),
            taken: 0,
        }
    }

    pub fn as_slice(&self) -> &[u8]
        ensures { result.now ≡ self.now }
    {
        &self.bytes[self.taken..]
    }

    /// Removes the first bytes.
    pub fn skip(&mut self, count: usize)
        requires { count ≤ length self.old }
        ensures { self.new ≡ drop count self.old }
    {
        self.taken += count;
    }

    /// Takes the first bytes, and adds them to the others.
    pub fn move_to(&mut self, bytes: &mut Vec<u8>, count: usize) -> Result<(), AllocError>
        requires { count ≤ length self.old }
        ensures taken { self.new ≡ drop count self.old }
        ensures moved { OnOk result (bytes.new.items ≡ bytes.old.items ++ take count self.old) }
    {
        let moved = bytes.extend_from_slice(&self.as_slice()[..count]);
        self.skip(count);
        moved
    }

    /// From now on this section is read: what is here is the front of it.
    pub fn begin<I: Inlet>(&self, inlet: &mut I, section: Section)
        ensures unread { I.reads inlet.old [] inlet.new }
        ensures sound { I.faults inlet.new ≡ I.faults inlet.old }
    {
        inlet.begin(section, self.as_slice().len());
    }

    /// Reads once, and says whether the input has ended.
    pub fn fill<I: Inlet>(&mut self, inlet: &mut I) -> Result<bool, ConnectionFault>
        requires { I.faults inlet.old < u64.MAX }
        ensures came { (more : List ℕ) × I.reads inlet.old more inlet.new
            × OnOk result (self.new ≡ self.old ++ more) }
        ensures end { result ≡ Ok true → I.ended inlet.new × (self.new ≡ self.old) }
        ensures grows { result ≡ Ok false → length self.old < length self.new }
        ensures sound { OnOk result (I.faults inlet.new ≡ I.faults inlet.old) }
        ensures link { IsErrOf result Failed → I.faults inlet.old < I.faults inlet.new }
    {
        if self.taken > 0 {
            drop_front(&mut self.bytes, self.taken);
            self.taken = 0;
        }
        match read_more(inlet, &mut self.bytes) {
            Ok(0) => Ok(true),
            Ok(_) => Ok(false),
            Err(fault) => Err(fault),
        }
    }
}
