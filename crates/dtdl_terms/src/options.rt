//! Copies of what may be absent.

ghost use Rattle.std.specs.Prelude.{◌≡◌, IfOk};

use dt_base::names::{Dtmi, Name};
use dt_base::{OutOfMemory, Text};
use std::alloc::Global;

/// An equal text, where there is one.
pub fn copy_text(alloc: Global, text: &Option<Text>) -> Result<Option<Text>, OutOfMemory>
    ensures { IfOk result (λ copy. copy ≡ text.now) }
{
    match text {
        Some(text) => Ok(Some(text.copy(alloc)?)),
        None => Ok(None),
    }
}

/// An equal name, where there is one.
pub fn copy_name(alloc: Global, name: &Option<Name>) -> Result<Option<Name>, OutOfMemory>
    ensures { IfOk result (λ copy. copy ≡ name.now) }
{
    match name {
        Some(name) => Ok(Some(name.copy(alloc)?)),
        None => Ok(None),
    }
}

/// An equal identifier, where there is one.
pub fn copy_id(alloc: Global, id: &Option<Dtmi>) -> Result<Option<Dtmi>, OutOfMemory>
    ensures { IfOk result (λ copy. copy ≡ id.now) }
{
    match id {
        Some(id) => Ok(Some(id.copy(alloc)?)),
        None => Ok(None),
    }
}
