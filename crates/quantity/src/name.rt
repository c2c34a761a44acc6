//! Names of resources.

ghost use Rattle.std.specs.Prelude.{◌≡◌, nat_eq, IfOk, IfErr};
ghost use Rattle.std.specs.List.{list_all};
ghost use Rattle.std.specs.Cmp.Lexicographic.{pointwise};
ghost use Rattle.quantity.specs.Faults.{IsRefusal};
ghost use Rattle.quantity.specs.Names.{is_name_byte, is_resource_name, name_of};
ghost use Rattle.quantity.specs.Texts.{bytes_of};

use crate::fault::QuantityFault;
use std::alloc::{AllocError, Global};
use std::fmt;
use std::marker::Model;
use values::Plain;

/// A text. The names that most agents have take no memory.
#[derive(Drop)]
enum Text {
    Cpus,
    Mem,
    Disk,
    Gpus,
    Other(String),
}

/// The name of a resource: 1 to 64 bytes of UTF-8 without control characters, spaces, `/` and `\`.
pub struct ResourceName {
    text: Text,
}

// By hand, so that who drops one goes through none of its parts.
impl Drop for ResourceName {
    fn drop(self) {
        let ResourceName { text: _ } = self;
    }
}

impl Model for ResourceName {
    ghost use Rattle.std.specs.Prelude.{List, ℕ, IsTrue};
    ghost use Rattle.quantity.specs.Names.{is_resource_name};
    ghost use Rattle.quantity.specs.Texts.{bytes_of};

    ghost Value = { List ℕ };

    ghost view = { λ name. bytes_of name.text };

    ghost invariant = { λ name. IsTrue (is_resource_name (bytes_of name.text)) };
}

fn are_name_bytes(text: &[u8]) -> bool
    ensures { result ≡ list_all is_name_byte text.now }
{
    text.iter()
        .all(|b| *b > 32 && *b != 127 && *b != b'/' && *b != b'\\')
}

/// Whether a text names a resource.
pub(crate) fn is_resource_name(text: &str) -> bool
    ensures { result ≡ is_resource_name text.now }
{
    !text.is_empty() && text.len() <= 64 && are_name_bytes(text.as_bytes())
}

impl Text {
    fn of(alloc: Global, text: &str) -> Result<Text, AllocError>
        ensures { IfOk result (λ kept. bytes_of kept ≡ text.now) }
    {
        match text {
            "cpus" => Ok(Text::Cpus),
            "mem" => Ok(Text::Mem),
            "disk" => Ok(Text::Disk),
            "gpus" => Ok(Text::Gpus),
            other => Ok(Text::Other(String::from_str(alloc, other)?)),
        }
    }

    fn as_str(&self) -> &str
        ensures { result.now ≡ bytes_of self.now }
    {
        match self {
            Text::Cpus => "cpus",
            Text::Mem => "mem",
            Text::Disk => "disk",
            Text::Gpus => "gpus",
            Text::Other(text) => text.as_str(),
        }
    }

    fn copied(&self) -> Result<Text, AllocError>
        ensures { IfOk result (λ copy. bytes_of copy ≡ bytes_of self.now) }
    {
        match self {
            Text::Cpus => Ok(Text::Cpus),
            Text::Mem => Ok(Text::Mem),
            Text::Disk => Ok(Text::Disk),
            Text::Gpus => Ok(Text::Gpus),
            Text::Other(text) => Ok(Text::Other(text.clone()?)),
        }
    }
}

impl ResourceName {
    /// The name that a text is; `Q5 BadName` where it is none.
    pub fn from_text(alloc: Global, text: &str) -> Result<ResourceName, QuantityFault>
        ensures ok { IfOk result (λ name. name_of text.now ≡ Ok name) }
        ensures refused { IfErr result (λ fault. IsRefusal fault (name_of text.now)) }
    {
        if !is_resource_name(text) {
            return Err(QuantityFault::BadName);
        }
        Ok(ResourceName {
            text: Text::of(alloc, text)?,
        })
    }

    pub fn as_str(&self) -> &str
        ensures { result.now ≡ self.now }
    {
        self.text.as_str()
    }
}

/// It shows the text alone.
impl fmt::Debug for ResourceName {
    fn fmt<W: fmt::Write>(&self, f: &mut fmt::Formatter<W>) -> fmt::Result {
        let text = self.as_str();
        f.debug_struct("ResourceName").field("text", &text).finish()
    }
}

impl Clone for ResourceName {
    ghost is_clone = { λ one other. other ≡ one };

    fn clone(&self) -> Result<ResourceName, AllocError> {
        Ok(ResourceName {
            text: self.text.copied()?,
        })
    }
}

impl PartialEq for ResourceName {
    ghost use Rattle.std.specs.Prelude.{nat_eq};
    ghost use Rattle.std.specs.Cmp.{partial_equiv_from_equiv};
    ghost use Rattle.std.specs.Cmp.Lexicographic.{nat_list_eq_equiv, pointwise};

    ghost eq = { pointwise nat_eq };

    ghost laws = { partial_equiv_from_equiv nat_list_eq_equiv };

    // (texts that take no memory are the same at once)
    fn eq(&self, other: &ResourceName) -> bool {
        match (&self.text, &other.text) {
            (Text::Cpus, Text::Cpus) | (Text::Mem, Text::Mem) => true,
            (Text::Disk, Text::Disk) | (Text::Gpus, Text::Gpus) => true,
            _ => self.as_str() == other.as_str(),
        }
    }
}

impl Plain for ResourceName {
    ghost use Rattle.std.specs.Cmp.{unsigned_Decides};
    ghost use Rattle.std.specs.Cmp.Lexicographic.{pointwise_decides};

    ghost cloned = { λ _ _ same. same };

    ghost decided = { pointwise_decides unsigned_Decides };
}
