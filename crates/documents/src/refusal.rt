//! Why documents are no set of interfaces.

ghost use Rattle.std.specs.Prelude.{◌≡◌};
ghost use Rattle.documents.specs.declared.refusal.Refusal.TheVariants as refusals;

use dt_base::{List, OutOfMemory};
use std::alloc::AllocError;
use thiserror::Error;

/// Why documents are refused.
#[derive(Debug, Drop, Error)]
pub enum Refusal {
    /// They have a fault, and this line names the first.
    #[error("the documents have a fault")]
    Line(List<u8>),
    /// There was no memory.
    #[error("out of memory")]
    OutOfMemory,
}

impl From<OutOfMemory> for Refusal {
    ghost from_gives = { λ _ end. end ≡ refusals.OutOfMemory };

    fn from(_error: OutOfMemory) -> Refusal {
        Refusal::OutOfMemory
    }
}

impl From<AllocError> for Refusal {
    ghost from_gives = { λ _ end. end ≡ refusals.OutOfMemory };

    fn from(_error: AllocError) -> Refusal {
        Refusal::OutOfMemory
    }
}
