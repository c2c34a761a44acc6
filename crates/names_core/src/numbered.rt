//! Ids as texts: a letter, a run, a dash and a number.

ghost use Rattle.std.specs.Prelude.{◌≡◌, ◌^◌, ◌<◌, ◌↔◌, ℕ, List, Some, option_map, IfOk, IfErr, IfSome, string_bytes};
ghost use Rattle.names_core.specs.Ids.{Numbered, InRange, id_text, id_of, number_of};

use crate::fault::NameFault;
use std::alloc::Global;

#[tactic(auto, unfolding(crate::specs::Ids::number_of))]
fn number(digits: &str) -> Option<u32>
    ensures some { IfSome result (λ n. 0 < n) }
    ensures value { result ≡ number_of (2 ^ 32) digits.now }
{
    match digits.as_bytes() {
        [b'1'..=b'9', ..] => digits.parse::<u32>().ok(),
        _ => None,
    }
}

#[tactic(auto, unfolding(crate::specs::Ids::number_of))]
fn small_number(digits: &str) -> Option<u16>
    ensures some { IfSome result (λ n. 0 < n) }
    ensures value { result ≡ number_of (2 ^ 16) digits.now }
{
    match digits.as_bytes() {
        [b'1'..=b'9', ..] => digits.parse::<u16>().ok(),
        _ => None,
    }
}

#[tactic(auto, unfolding(crate::specs::Ids::id_of))]
pub fn numbers_of(letter: char, text: &str) -> Option<(u16, u32)>
    requires { (0 < letter) × (letter < 128) }
    ensures some { IfSome result (λ x. (0 < x.0) × (0 < x.1)) }
    ensures value { option_map (λ x. record { run = x.0; n = x.1 }) result ≡ id_of letter text.now }
{
    let rest = text.strip_prefix(letter)?;
    let (run, n) = rest.split_once('-')?;
    let run = small_number(run)?;
    let n = number(n)?;
    Some((run, n))
}

pub fn text_of(alloc: Global, letter: char, run: u16, n: u32) -> Result<String, NameFault>
    requires { letter < 128 }
    ensures text { IfOk result (λ t. string_bytes t
        ≡ id_text letter (record { run = run; n = n })) }
    ensures err { IfErr result (λ e. e ≡ NameFault.OutOfMemory) }
{
    Ok(format!(in alloc; "{letter}{run}-{n}")?)
}

/// A text has one id, and an id one text.
pub fn one_text()
    ensures { (letter : ℕ) (i : Numbered) (text : List ℕ) → letter < 128
        → (id_of letter text ≡ Some i) ↔ (InRange i × (text ≡ id_text letter i)) }
{}
