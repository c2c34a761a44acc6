//! Plain data: a clone of a value is the value, and values that compare equal are one.

ghost use Rattle.std.specs.Prelude.{◌≡◌, ◌↔◌, ◌++◌, IfOk, IsTrue, OnOk};
ghost use Rattle.std.specs.Bool.{Decides};

use std::alloc::{AllocError, Global};

/// What contracts may rely on of a type that derives `Clone` and `PartialEq`.
pub trait Plain: Clone + PartialEq {
    /// A clone is the value.
    ghost cloned: { (x y : Self) → Self.is_clone x y → y ≡ x };

    /// Values that compare equal are one.
    ghost decided: { (x y : Self) → Decides (Self.eq x y) (x ≡ y) };

    /// A copy, on the allocators of the value.
    final fn copy(&self) -> Result<Self, AllocError>
        ensures { IfOk result (λ copy. copy ≡ self.now) }
    {
        self.clone()
    }

    /// Whether it is the other value. It takes no memory.
    final fn is_same(&self, other: &Self) -> bool
        ensures { IsTrue result ↔ (self.now ≡ other.now) }
    {
        *self == *other
    }
}

impl<T: Plain> Plain for Option<T> {
    ghost use Rattle.std.proofs.Common.{rules};

    ghost cloned = { Prim.search rules };

    ghost decided = { Prim.search rules };
}

/// Appends copies of values to others.
pub fn push_copies<T: Plain + Drop>(values: &mut Vec<T>, more: &[T]) -> Result<(), AllocError>
    ensures { OnOk result (values.new.items ≡ values.old.items ++ more.now) }
{
    for value in more {
        values.push(value.copy()?)?;
    }
    Ok(())
}

/// Copies of values.
pub fn copies_of<T: Plain + Drop>(alloc: Global, values: &[T]) -> Result<Vec<T>, AllocError>
    ensures { IfOk result (λ copies. copies.items ≡ values.now) }
{
    let mut copies = Vec::with_capacity(alloc, values.len())?;
    push_copies(&mut copies, values)?;
    Ok(copies)
}

/// Whether two lists have the same values. It takes no memory.
pub fn are_same<T: Plain>(values: &[T], others: &[T]) -> bool
    ensures { IsTrue result ↔ (values.now ≡ others.now) }
{
    values == others
}
