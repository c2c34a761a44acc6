//! What the parts of a request come to.

ghost use Rattle.std.specs.Prelude.{◌≡◌, ◌↔◌, ◌≤◌, ◌++◌, List, ℕ, Some, None, length, take};
ghost use Rattle.http_head.specs.declared.cut.Place.{Place};
ghost use Rattle.http_head.specs.declared.cut.Place.TheVariants.{Front};
ghost use Rattle.http_head.specs.Cuts.{cut_len, place_behind};
ghost use Rattle.http_head.specs.Parts.{IsPart, IsBlank, LacksPart};

/// Where the search byte by byte finds an end, the bytes before it are the part, and no other
/// beginning is. Where it finds none, no beginning is.
pub fn parts_are_found()
    ensures some { (place : Place) (input : List ℕ) (n : ℕ) → (cut_len place input ≡ Some n)
        ↔ ((n ≤ length input) × IsPart place (take n input)) }
    ensures none { (place : Place) (input : List ℕ)
        → (cut_len place input ≡ None) ↔ LacksPart place input }
{}

/// A text begins with one part at most: no beginning that is shorter or longer than a part is one.
pub fn one_part()
    ensures { (place : Place) (text rest other more : List ℕ) → IsPart place text
        → IsPart place other → text ++ rest ≡ other ++ more → (text ≡ other) × (rest ≡ more) }
{}

/// The search is where a head may begin exactly behind whole empty lines.
pub fn blanks_are_found()
    ensures { (text : List ℕ) → (place_behind Front text ≡ Front) ↔ IsBlank text }
{}
