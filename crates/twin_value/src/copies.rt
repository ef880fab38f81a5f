//! Relationships in memory of their own.

ghost use Rattle.std.specs.Prelude.{◌≡◌, IfOk};

use crate::link::{Relationship, bare_link, with_values};
use dt_base::OutOfMemory;
use std::alloc::Global;

/// An equal relationship in memory of its own. Fails only for want of memory.
pub fn copy_rel(alloc: Global, link: &Relationship) -> Result<Relationship, OutOfMemory>
    ensures { IfOk result (λ copy. copy ≡ link.now) }
{
    let payload = link.payload.copy(alloc)?;
    let (source, id) = (link.source.as_str(), link.id.as_str());
    let (name, target) = (link.name.as_str(), link.target.as_str());
    let Ok(bare) = bare_link(alloc, source, id, name, target) else {
        drop(payload);
        return Err(OutOfMemory);
    };
    Ok(with_values(bare, payload))
}
