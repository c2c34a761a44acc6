//! Where a part of a request ends.

ghost use Rattle.std.specs.Prelude.{◌≡◌, ◌≤◌, None, IfSome, length, take};
ghost use Rattle.http_head.specs.Cuts.{is_last, place_after, HasSeen};
ghost use Rattle.http_head.specs.Parts.{IsPart, LacksPart};

/// The most bytes of a head, of a chunk's line and of trailers,
/// with their line ends and empty lines.
pub const MAX_PART: usize = 16_384;

/// Where in a part of a request the next byte is.
#[derive(Clone, Copy, Drop, PartialEq, Eq)]
pub enum Place {
    /// At the start of a line, with nothing but empty lines before it. A head begins here.
    Front,
    /// The same, after a CR.
    FrontCr,
    /// In a line that isn't empty.
    Inside,
    /// At the start of a line that may be the last, empty one. Trailers begin here.
    Start,
    /// The same, after a CR.
    StartCr,
    /// In a part of one line. A chunk's line begins here.
    Line,
}

impl Place {
    fn is_last(self, byte: u8) -> bool
        ensures { result ≡ is_last self byte }
    {
        byte == 10 && (self == Place::Start || self == Place::StartCr || self == Place::Line)
    }

    fn after(self, byte: u8) -> Place
        ensures { result ≡ place_after self byte }
    {
        match (self, byte) {
            (Place::Line, _) => Place::Line,
            (Place::Front, 10) => Place::Front,
            (Place::FrontCr, 10) => Place::Front,
            (_, 10) => Place::Start,
            (Place::Front, 13) => Place::FrontCr,
            (Place::Start, 13) => Place::StartCr,
            _ => Place::Inside,
        }
    }
}

/// How far a text was searched for the end of the part that it begins with, so that no byte is
/// examined twice.
#[derive(Clone, Copy, Drop)]
pub struct Scan {
    /// What begins the part.
    pub start: Place,
    /// Where the next byte is.
    pub place: Place,
    /// So many bytes were examined, and don't end the part.
    pub seen: usize,
}

impl Scan {
    /// Nothing was examined yet.
    pub fn new(start: Place) -> Scan
        ensures start { result.start ≡ start }
        ensures place { result.place ≡ start }
        ensures seen { result.seen ≡ 0 }
    {
        Scan {
            start,
            place: start,
            seen: 0,
        }
    }

    /// How many bytes the part has, once its end is there.
    /// Only bytes that weren't examined before are examined.
    pub fn look(&mut self, bytes: &[u8]) -> Option<usize>
        requires { HasSeen self.old bytes.now }
        ensures part { IfSome result (λ n. IsPart self.old.start (take n bytes.now)) }
        ensures within { IfSome result (λ n. n ≤ length bytes.now) }
        ensures none { result ≡ None → LacksPart self.old.start bytes.now }
        ensures start { self.new.start ≡ self.old.start }
        ensures seen { result ≡ None → HasSeen self.new bytes.now }
        ensures all { result ≡ None → self.new.seen ≡ length bytes.now }
    {
        for i in self.seen..bytes.len() {
            let byte = bytes[i];
            if self.place.is_last(byte) {
                return Some(i + 1);
            }
            self.place = self.place.after(byte);
            self.seen = i + 1;
        }
        None
    }
}
