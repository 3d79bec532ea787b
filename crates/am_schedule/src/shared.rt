//! Values shared by several owners.

ghost use Rattle.std.specs.Prelude.{◌≡◌, IfOk};

use std::alloc::{AllocError, Global};
use std::marker::Model;
use std::rc::Rc;

/// A value that several steps hold, and that is stored once. Contracts see the value.
#[derive(Drop)]
pub struct Shared<T> {
    value: Rc<T>,
}

impl<T> Model for Shared<T> {
    ghost Value = { T };

    ghost view = { λ s. s.value.value };
}

impl<T: Drop> Shared<T> {
    pub(crate) fn new(alloc: Global, value: T) -> Result<Shared<T>, AllocError>
        ensures { IfOk result (λ shared. shared ≡ value) }
    {
        let value = Rc::new(alloc, value)?;
        Ok(Shared { value })
    }

    /// Returns another owner of the value.
    pub(crate) fn share(&self) -> Result<Shared<T>, AllocError>
        ensures { IfOk result (λ shared. shared ≡ self.now) }
    {
        let value = self.value.clone()?;
        Ok(Shared { value })
    }

    /// Returns the value.
    pub fn get(&self) -> &T
        ensures { result.now ≡ self.now }
    {
        self.value.as_ref()
    }
}
