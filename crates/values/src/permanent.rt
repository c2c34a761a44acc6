//! Values that are stored once, for as long as the program runs, and have any number of owners.

ghost use Rattle.std.specs.Prelude.{◌≡◌, ◌<◌, vec_len, vec_capacity};

use std::alloc::{AllocError, Global};
use std::marker::Model;
use std::ops::Deref;

/// Room on the heap for one value.
#[derive(Drop)]
pub struct Place<T> {
    items: Vec<T>,
    ghost is_empty: { vec_len items ≡ 0 },
    ghost has_room: { 0 < vec_capacity items },
}

/// A value that is never freed. Each owner has a reference to it.
#[derive(Drop)]
pub struct Permanent<'a, T> {
    value: &'a T,
}

impl<'a, T> Model for Permanent<'a, T> {
    ghost Value = { T };

    ghost view = { λ p. p.value.now };
}

impl<T: Drop> Place<T> {
    pub fn new(alloc: Global) -> Result<Place<T>, AllocError> {
        Ok(Place {
            items: Vec::with_capacity(alloc, 1)?,
        })
    }

    /// Stores the value for as long as the program runs. It takes no memory, and none is freed.
    pub fn fill<'a>(self, value: T) -> Permanent<'a, T>
    where
        T: 'a,
        ensures { result ≡ value }
    {
        let Place { items } = self;
        let mut items = items;
        items.push_reserved(value);
        let filled: &'a [T] = items.leak();
        Permanent { value: &filled[0] }
    }
}

impl<'a, T> Permanent<'a, T> {
    pub fn get(&self) -> &T
        ensures { result.now ≡ self.now }
    {
        self.value
    }

    /// One more owner. It takes no memory.
    pub fn share(&self) -> Permanent<'a, T>
        ensures { result ≡ self.now }
    {
        Permanent { value: self.value }
    }
}

impl<'a, T> Deref for Permanent<'a, T> {
    type Target = T;

    ghost deref_gives = { λ permanent value. value ≡ permanent };

    fn deref(&self) -> &T
        ensures { result.now ≡ self.now }
    {
        self.get()
    }
}
