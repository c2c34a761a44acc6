//! All that was ever sent.

ghost use Rattle.std.specs.Prelude.{◌≡◌, ◌++◌, [], take, OnOk, OnErr};

use cluster_laws::Item;
use std::alloc::{AllocError, Global};
use std::marker::Model;
use values::Listed;

/// All calls and mails that were ever sent, in the order of sending:
/// number n is at place n - 1.
pub struct Items {
    items: Vec<Item>,
}

// By hand, so that the proof of who drops one visits none of its parts.
impl Drop for Items {
    fn drop(self) {
        let Items { items: _ } = self;
    }
}

impl Model for Items {
    ghost use Rattle.std.specs.Prelude.{List};
    ghost use Rattle.cluster_laws.specs.declared.item.Item.{Item};

    ghost Value = { List Item };

    ghost view = { λ i. i.items.items };
}

impl Items {
    /// Nothing was sent yet.
    pub fn new(alloc: Global) -> Items
        ensures { result ≡ [] }
    {
        Items {
            items: Vec::new(alloc),
        }
    }

    /// All of them, the oldest first.
    pub fn as_slice(&self) -> &[Item]
        ensures { result.now ≡ self.now }
    {
        self.items.as_slice()
    }

    /// Adds what was sent, or nothing where memory is refused.
    pub fn append(&mut self, more: Listed<Item>) -> Result<(), AllocError>
        ensures ok { OnOk result (self.new ≡ self.old ++ more) }
        ensures err { OnErr result (self.new ≡ self.old) }
    {
        let mut more = more.into_vec();
        self.items.append(&mut more)
    }

    /// Removes what was added after the first so many.
    pub fn cut(&mut self, len: usize)
        ensures { self.new ≡ take len self.old }
    {
        self.items.truncate(len);
    }
}
