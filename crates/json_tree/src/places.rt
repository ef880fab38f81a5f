//! Places in a tree.

ghost use Rattle.std.specs.Prelude.{◌≡◌, IfOk};

use dt_base::{List, OutOfMemory};
use std::alloc::Global;

/// Where a value stands inside another: on each step down, the position of the element or member, counted from 0.
#[derive(Debug, Drop)]
pub struct Place {
    pub steps: List<u64>,
}

impl Place {
    /// An equal place in memory of its own. Fails only for want of memory.
    pub fn copy(&self, alloc: Global) -> Result<Place, OutOfMemory>
        ensures { IfOk result (λ place. place ≡ self.now) }
    {
        let mut steps = Vec::with_capacity(alloc, self.steps.len())?;
        steps.extend_from_slice(self.steps.as_slice())?;
        Ok(Place {
            steps: List::from_vec(steps),
        })
    }
}
