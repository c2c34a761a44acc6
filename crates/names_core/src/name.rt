//! Which texts are names, and their numbers.

ghost use Rattle.std.specs.Prelude.{◌≡◌};
ghost use Rattle.std.specs.List.{list_all};
ghost use Rattle.names_core.specs.Names.{is_role_byte, is_name_byte, is_configured_byte, is_role, is_name, is_configured, bytes_before, name_number};

fn all_role_bytes(text: &[u8]) -> bool
    ensures { result ≡ list_all is_role_byte text.now }
{
    text.iter().all(|b| *b > 32 && *b != 127 && *b != b'\\')
}

fn all_name_bytes(text: &[u8]) -> bool
    ensures { result ≡ list_all is_name_byte text.now }
{
    text.iter()
        .all(|b| *b > 32 && *b != 127 && *b != b'\\' && *b != b'/')
}

fn all_configured_bytes(text: &[u8]) -> bool
    ensures { result ≡ list_all is_configured_byte text.now }
{
    text.iter().all(|b| b.is_ascii_alphanumeric() || *b == b'-' || *b == b'_' || *b == b'.')
}

#[tactic(auto, unfolding(crate::specs::Names::is_role))]
pub fn is_role_name(text: &str) -> bool
    ensures { result ≡ is_role text.now }
{
    !text.is_empty() && text.len() <= 255 && all_role_bytes(text.as_bytes())
}

#[tactic(auto, unfolding(crate::specs::Names::is_name))]
pub fn is_plain_name(text: &str) -> bool
    ensures { result ≡ is_name text.now }
{
    !text.is_empty() && text.len() <= 255 && all_name_bytes(text.as_bytes())
}

#[tactic(auto, unfolding(crate::specs::Names::is_configured))]
pub fn is_configured_name(text: &str) -> bool
    ensures { result ≡ is_configured text.now }
{
    !text.is_empty() && text.len() <= 64 && all_configured_bytes(text.as_bytes())
}

/// Whether a text comes before another in byte order.
pub fn is_text_before(text: &str, other: &str) -> bool
    ensures { result ≡ bytes_before text.now other.now }
{
    text.cmp(other).is_lt()
}

/// A number of a name, by which most names that differ are distinguished.
pub fn name_number(text: &str) -> u32
    ensures { result ≡ name_number text.now }
{
    let mut number: u32 = 0;
    for byte in text.as_bytes() {
        number = number.wrapping_mul(31).wrapping_add(u32::from(*byte));
    }
    number
}
