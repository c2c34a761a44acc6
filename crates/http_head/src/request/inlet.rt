//! Where the bytes of a connection come from.

ghost use Rattle.std.specs.Prelude.{◌≡◌, ◌<◌, ◌≤◌, ℕ, List, [], ◌++◌, length, take, Some, IfSome, OnSome, IfNone};

/// What of a request is read next.
#[derive(Clone, Copy, Debug, Drop, PartialEq, Eq)]
pub enum Section {
    /// Its head, with the empty lines before it.
    Head,
    /// Its body, with the lines of its chunks and its trailers.
    Body,
    /// Nothing: the request is there, and is answered.
    Answer,
}

/// Where bytes come from.
pub trait Inlet {
    /// From the one state to the other exactly these bytes were read.
    ghost reads: { Self → List ℕ → Self → Type 0 };

    /// The input has ended.
    ghost ended: { Self → Type 0 };

    /// How many reads failed.
    ghost faults: { Self → ℕ };

    /// Reads once, into the front of the piece, and says how many bytes.
    /// No byte is the end of the input, and `None` is a read that failed.
    fn read(&mut self, piece: &mut [u8]) -> Option<usize>
        requires room { 0 < length piece.old }
        requires countable { faults self.old < u64.MAX }
        ensures within { IfSome result (λ n. n ≤ length piece.new) }
        ensures bytes { IfSome result (λ n. reads self.old (take n piece.new) self.new) }
        ensures end { result ≡ Some 0 → ended self.new }
        ensures sound { OnSome result (faults self.new ≡ faults self.old) }
        ensures failed { IfNone result
            (reads self.old [] self.new × (faults self.old < faults self.new)) };

    /// From now on this section is read, of which so many bytes were read before.
    /// An inlet may say so that its input is at its end sooner in one section than in another.
    fn begin(&mut self, section: Section, there: usize)
        ensures unread { reads self.old [] self.new }
        ensures sound { faults self.new ≡ faults self.old };

    ghost reads_nothing: { (s : Self) → reads s [] s };

    ghost reads_more: { (a b c : Self) (x y : List ℕ) → reads a x b → reads b y c
        → reads a (x ++ y) c };
}
