//! What answers lines.

ghost use Rattle.std.specs.Prelude.{◌≡◌, [], List, ℕ, Bool, false, IfOk, OnOk};
ghost use Rattle.frame_record.specs.Texts.{kept};

use std::alloc::{AllocError, Global};

/// Something that answers each line with a text, until it takes no further ones, and has a text for
/// the end. Lines are without their line feeds. Of a line of more than 1,048,576 bytes only the
/// first 1,048,577 are passed.
pub trait LineAnswerer {
    /// Its answer to a line.
    ghost answered_text: { Self → List ℕ → List ℕ };

    /// Its state after a line.
    ghost after: { Self → List ℕ → Self };

    /// Whether it takes a further line.
    ghost goes_on: { Self → Bool };

    /// Its answer at the end.
    ghost ending: { Self → List ℕ };

    /// Answers a line. Where memory is refused nothing is known of its state.
    fn answer_line(&mut self, alloc: Global, line: &[u8]) -> Result<Vec<u8>, AllocError>
        ensures answered_text { IfOk result (λ text. text.items ≡ answered_text self.old line.now) }
        ensures after { OnOk result (self.new ≡ after self.old line.now) };

    fn goes_on(&self) -> bool
        ensures { result ≡ goes_on self.now };

    fn end(&self, alloc: Global) -> Result<Vec<u8>, AllocError>
        ensures { IfOk result (λ text. text.items ≡ ending self.now) };

    /// Where it takes no further line, the answer to one is empty, and its state stays.
    ghost stays: { (s : Self) (line : List ℕ) → goes_on s ≡ false → (answered_text s line ≡ [])
        × (after s line ≡ s) };

    /// What is kept of a line determines its answer, and the state after it.
    ghost enough: { (s : Self) (line : List ℕ)
        → (answered_text s (kept line) ≡ answered_text s line)
        × (after s (kept line) ≡ after s line) };
}
