//! Small texts in the values of fields.

ghost use Rattle.std.specs.Prelude.{◌≡◌, ◌<◌, ◌≤◌, ◌^◌, ◌==◌, length, reverse};
ghost use Rattle.std.specs.List.{position_or_len};
ghost use Rattle.httparse.specs.Grammar.{skip_ows, trim_ows};
ghost use Rattle.http_head.specs.Heads.{is_json, is_close, has_close};

use http1::text::eq_ignore_case;
use httparse::is_space_or_tab;

fn trim_start(mut text: &[u8]) -> &[u8]
    ensures { result.now ≡ skip_ows text.now }
{
    while let [first, rest @ ..] = text
        && is_space_or_tab(*first)
    {
        text = rest;
    }
    text
}

fn trim_end(mut text: &[u8]) -> &[u8]
    ensures { result.now ≡ reverse (skip_ows (reverse text.now)) }
{
    while let [rest @ .., last] = text
        && is_space_or_tab(*last)
    {
        text = rest;
    }
    text
}

fn trim(text: &[u8]) -> &[u8]
    ensures { result.now ≡ trim_ows text.now }
{
    trim_end(trim_start(text))
}

/// The place of the first such byte, or the end.
fn find(text: &[u8], wanted: u8) -> usize
    ensures place { result ≡ position_or_len (λ b. b == wanted) text.now }
    ensures bound { result ≤ length text.now }
    ensures small { result < 2 ^ 63 }
{
    for (i, byte) in text.iter().enumerate() {
        if *byte == wanted {
            return i;
        }
    }
    text.len()
}

/// Whether a media type is `application/json`, with or without parameters.
pub fn is_json(text: &[u8]) -> bool
    ensures { result ≡ is_json text.now }
{
    eq_ignore_case(trim(&text[..find(text, b';')]), b"application/json")
}

fn is_close(word: &[u8]) -> bool
    ensures { result ≡ is_close word.now }
{
    eq_ignore_case(trim(word), b"close")
}

/// Whether one of the words between commas is `close`.
pub fn has_close(text: &[u8]) -> bool
    ensures { result ≡ has_close text.now }
{
    let mut rest = text;
    loop {
        let end = find(rest, b',');
        if is_close(&rest[..end]) {
            return true;
        }
        if end >= rest.len() {
            return false;
        }
        rest = &rest[end + 1..];
    }
}
