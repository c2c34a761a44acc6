//! The first piece of a text.

ghost use Rattle.std.specs.Prelude.{◌≡◌, ◌≤◌, ◌<◌, false, length, take_while};
ghost use Rattle.call_json.specs.Cuts.{is_token_byte};
ghost use Rattle.call_json.specs.Trim.{string_len, piece_len};

/// Where a string ends, in the text after its first quote.
#[tactic(auto, unfolding(crate::specs::Trim::string_len))]
fn string_end(text: &[u8]) -> usize
    ensures len { result ≡ string_len false text.now }
    ensures inside { result ≤ length text.now }
{
    let mut escaped = false;
    for (i, b) in text.iter().enumerate() {
        if escaped {
            escaped = false;
        } else if *b == b'"' {
            return i + 1;
        } else {
            escaped = *b == b'\\';
        }
    }
    text.len()
}

fn token_end(text: &[u8]) -> usize
    ensures { result ≡ length (take_while is_token_byte text.now) }
{
    text.iter()
        .take_while(|b| b.is_ascii_digit() || matches!(**b, b'+' | b'-' | b'.' | b'e' | b'E'))
        .count()
}

/// Where the first piece ends.
pub fn piece_end(text: &[u8]) -> usize
    requires { 0 < length text.now }
    ensures len { result ≡ piece_len text.now }
    ensures inside { result ≤ length text.now }
    ensures some { 0 < result }
{
    let (first, rest) = text.split_at(1);
    let b = first[0];
    if b == b'"' {
        1 + string_end(rest)
    } else if b.is_ascii_digit() || matches!(b, b'+' | b'-' | b'.' | b'e' | b'E') {
        1 + token_end(rest)
    } else {
        1
    }
}
