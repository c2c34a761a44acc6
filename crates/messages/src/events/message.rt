//! What an ERROR event says.

ghost use Rattle.std.specs.Prelude.{◌≡◌, ◌≤◌, length, IfOk};

use std::alloc::{AllocError, Global};
use std::marker::Model;
use values::Plain;

/// A text of at most 255 bytes.
pub struct Message {
    text: String,
}

// By hand, so that who drops one goes through none of its parts.
impl Drop for Message {
    fn drop(self) {
        let Message { text: _ } = self;
    }
}

impl Model for Message {
    ghost use Rattle.std.specs.Prelude.{List, ℕ, ◌≤◌, length, string_bytes};

    ghost Value = { List ℕ };

    ghost view = { λ message. string_bytes message.text };

    ghost invariant = { λ message. length (string_bytes message.text) ≤ 255 };
}

impl Message {
    pub fn from_text(alloc: Global, text: &str) -> Result<Message, AllocError>
        requires { length text.now ≤ 255 }
        ensures { IfOk result (λ message. message ≡ text.now) }
    {
        Ok(Message {
            text: String::from_str(alloc, text)?,
        })
    }

    pub fn as_text(&self) -> &str
        ensures text { result.now ≡ self.now }
        ensures short { length self.now ≤ 255 }
    {
        self.text.as_str()
    }
}

impl Clone for Message {
    ghost is_clone = { λ one other. other ≡ one };

    fn clone(&self) -> Result<Message, AllocError> {
        Ok(Message {
            text: self.text.clone()?,
        })
    }
}

impl PartialEq for Message {
    ghost use Rattle.std.specs.Prelude.{nat_eq};
    ghost use Rattle.std.specs.Cmp.{partial_equiv_from_equiv};
    ghost use Rattle.std.specs.Cmp.Lexicographic.{nat_list_eq_equiv, pointwise};

    ghost eq = { pointwise nat_eq };

    ghost laws = { partial_equiv_from_equiv nat_list_eq_equiv };

    fn eq(&self, other: &Message) -> bool {
        self.text == other.text
    }
}

impl Plain for Message {
    ghost use Rattle.std.specs.Cmp.{unsigned_Decides};
    ghost use Rattle.std.specs.Cmp.Lexicographic.{pointwise_decides};

    ghost cloned = { λ _ _ same. same };

    ghost decided = { pointwise_decides unsigned_Decides };
}
