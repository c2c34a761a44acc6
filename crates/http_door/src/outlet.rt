//! Where the bytes of a connection are written.

ghost use Rattle.std.specs.Prelude.{◌≡◌, ◌<◌, ◌≤◌, ℕ, List, [], ◌++◌, length, take, IfSome, OnSome, IfNone};

/// Where bytes are written.
pub trait Outlet {
    /// From the one state to the other exactly these bytes were written.
    ghost writes: { Self → List ℕ → Self → Type 0 };

    /// How many writes failed.
    ghost faults: { Self → ℕ };

    /// Writes once, at least one byte from the front of the piece, and says how many.
    /// `None` is a write that failed.
    fn write(&mut self, piece: &[u8]) -> Option<usize>
        requires some { 0 < length piece.now }
        requires countable { faults self.old < u64.MAX }
        ensures within { IfSome result (λ n. (0 < n) × (n ≤ length piece.now)) }
        ensures bytes { IfSome result (λ n. writes self.old (take n piece.now) self.new) }
        ensures sound { OnSome result (faults self.new ≡ faults self.old) }
        ensures failed { IfNone result
            (writes self.old [] self.new × (faults self.old < faults self.new)) };

    /// From now on one text is written, which is sent whole: a response, or a chunk of a stream.
    fn begin_text(&mut self)
        ensures unwritten { writes self.old [] self.new }
        ensures sound { faults self.new ≡ faults self.old };

    ghost writes_nothing: { (s : Self) → writes s [] s };

    ghost writes_more: { (a b c : Self) (x y : List ℕ) → writes a x b → writes b y c
        → writes a (x ++ y) c };
}
