//! Why no tree was read.

ghost use Rattle.std.specs.Prelude.{◌≡◌};
ghost use Rattle.json_read.specs.declared.fault.JsonFault.TheVariants as faults;

use json_tree::Place;
use std::alloc::{AllocError, AllocFailed};
use thiserror::Error;

/// Why no tree was read.
#[derive(Debug, Drop, Error)]
pub enum JsonFault {
    /// No JSON text begins with the bytes up to and with the one at `at`, counted from 0, and this is the first
    /// such byte.
    #[error("wrong byte {at}")]
    Byte { at: u64 },
    /// The bytes are the front of a JSON text and none themselves; `at` is how many they are.
    #[error("ends after {at} bytes")]
    Ends { at: u64 },
    /// The bytes are a JSON text, and the first fault in it, in preorder, is the value of a member with a key that
    /// an earlier member of the same object has.
    #[error("a key stands twice")]
    Duplicate { place: Place },
    /// The bytes are a JSON text, and the first fault in it, in preorder, is a number with an exponent outside
    /// -900 to 900.
    #[error("a number is out of range")]
    Range { place: Place },
    /// No memory was found, which says nothing of the bytes.
    #[error("out of memory")]
    OutOfMemory,
}

impl From<dt_base::OutOfMemory> for JsonFault {
    ghost from_gives = { λ _ e. e ≡ faults.OutOfMemory };

    fn from(_error: dt_base::OutOfMemory) -> JsonFault {
        JsonFault::OutOfMemory
    }
}

impl From<AllocError> for JsonFault {
    ghost from_gives = { λ _ e. e ≡ faults.OutOfMemory };

    fn from(_error: AllocError) -> JsonFault {
        JsonFault::OutOfMemory
    }
}

impl<T: Drop> From<AllocFailed<T>> for JsonFault {
    ghost from_gives = { λ _ e. e ≡ faults.OutOfMemory };

    fn from(_error: AllocFailed<T>) -> JsonFault {
        JsonFault::OutOfMemory
    }
}
