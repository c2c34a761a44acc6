//! A value with several owners, in any threads, whose contracts see the value alone.

ghost use Rattle.std.specs.Prelude.{◌≡◌, IfOk};

use crate::plain::Plain;
use std::alloc::{AllocError, Global};
use std::fmt;
use std::marker::Model;
use std::ops::Deref;
use std::sync::Arc;

/// A value that its owners share. It is stored once on the heap, and is dropped with its last
/// owner.
#[derive(Drop)]
pub struct Shared<T> {
    arc: Arc<T>,
}

impl<T> Model for Shared<T> {
    ghost use Rattle.std.specs.Arc.{arc_value};

    ghost Value = { T };

    ghost view = { λ s. arc_value s.arc };
}

impl<T> Shared<T> {
    pub fn get(&self) -> &T
        ensures { result.now ≡ self.now }
    {
        &*self.arc
    }

    /// One more owner. It takes no memory, and fails only where there are 2^63 - 1 owners.
    pub fn share(&self) -> Result<Shared<T>, AllocError>
        ensures { IfOk result (λ shared. shared ≡ self.now) }
    {
        Ok(Shared {
            arc: Arc::try_clone(&self.arc)?,
        })
    }
}

impl<T: Drop> Shared<T> {
    /// The first owner of a new value.
    pub fn new(alloc: Global, value: T) -> Result<Shared<T>, AllocError>
        ensures { IfOk result (λ shared. shared ≡ value) }
    {
        Ok(Shared {
            arc: Arc::new(alloc, value)?,
        })
    }
}

impl<T> Deref for Shared<T> {
    type Target = T;

    ghost deref_gives = { λ shared value. value ≡ shared };

    fn deref(&self) -> &T
        ensures { result.now ≡ self.now }
    {
        self.get()
    }
}

/// It is shown as its value.
impl<T: fmt::Debug> fmt::Debug for Shared<T> {
    fn fmt<W: fmt::Write>(&self, f: &mut fmt::Formatter<W>) -> fmt::Result {
        self.get().fmt(f)
    }
}

impl<T: Plain> Clone for Shared<T> {
    ghost is_clone = { λ one other. other ≡ one };

    fn clone(&self) -> Result<Shared<T>, AllocError> {
        self.share()
    }
}

impl<T: Plain> PartialEq for Shared<T> {
    ghost eq = { T.eq };

    ghost laws = { T.laws };

    fn eq(&self, other: &Shared<T>) -> bool {
        *self.get() == *other.get()
    }
}

impl<T: Plain> Plain for Shared<T> {
    ghost cloned = { λ _ _ same. same };

    ghost decided = { T.decided };
}
