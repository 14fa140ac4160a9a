//! A value that an entry or a reply keeps elsewhere.

ghost use Rattle.std.specs.Prelude.{◌≡◌, IfOk};

use std::alloc::{AllocError as NoMemory, Global};
use std::marker::Model;

/// A value behind a box, so that what holds it stays small. Contracts see the value and nothing else.
#[derive(Debug, Drop)]
pub struct Boxed<T> {
    inner: Box<T>,
}

impl<T> Model for Boxed<T> {
    ghost use Rattle.std.specs.Prelude.{box_value};

    ghost Value = { T };

    ghost view = { λ b. box_value b.inner };
}

impl<T> Boxed<T> {
    /// Moves a value into a box.
    pub fn new(alloc: Global, value: T) -> Result<Self, NoMemory>
    where
        T: Drop,
        ensures { IfOk result (λ boxed. boxed ≡ value) }
    {
        Ok(Boxed {
            inner: Box::new(alloc, value)?,
        })
    }

    /// The value.
    pub fn get(&self) -> &T
        ensures { result.now ≡ self.now }
    {
        self.inner.as_ref()
    }
}

/// Boxed values are equal where the values are.
impl<T: PartialEq> PartialEq for Boxed<T> {
    ghost eq = { λ x y. T.eq x y };

    ghost laws = { T.laws };

    fn eq(&self, other: &Boxed<T>) -> bool {
        *self.get() == *other.get()
    }
}
