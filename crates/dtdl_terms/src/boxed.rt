ghost use Rattle.std.specs.Prelude.{◌≡◌, IfOk};

use dt_base::OutOfMemory;
use std::alloc::Global;
use std::marker::Model;

/// A `Box` that contracts see as the value in it, and so without where it lies in memory.
#[derive(Debug, Drop)]
pub struct Boxed<T> {
    pub inner: Box<T>,
}

impl<T> Model for Boxed<T> {
    ghost Value = { T };

    ghost coded = { T.code };

    ghost view = { λ b. b.inner.value };
}

impl<T> Boxed<T> {
    /// The value in it.
    pub fn get(&self) -> &T
        ensures { result.now ≡ self.now }
    {
        &self.inner
    }
}

impl<T: Drop> Boxed<T> {
    /// A box with a value. After want of memory the value is given up.
    pub fn new(alloc: Global, value: T) -> Result<Boxed<T>, OutOfMemory>
        ensures { IfOk result (λ boxed. boxed ≡ value) }
    {
        let inner = Box::new(alloc, value)?;
        Ok(Boxed { inner })
    }
}
