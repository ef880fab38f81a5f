//! Copies of lists.

ghost use Rattle.std.specs.Prelude.{◌≡◌, IfOk};

use crate::common::Entry;
use crate::enumeration::EnumEntry;
use crate::resolved::{NamedIn, PartOf, ResolvedContent};
use crate::schema::Schema;
use dt_base::names::Dtmi;
use dt_base::{List, OutOfMemory};
use std::alloc::Global;

/// A value of which an equal one can be made in memory of its own.
pub trait TryCopy: Drop {
    /// An equal value in memory of its own.
    fn try_copy(&self, alloc: Global) -> Result<Self, OutOfMemory>
        ensures { IfOk result (λ copy. copy ≡ self.now) };
}

/// A list of equal items.
pub fn copy_all<T: TryCopy>(alloc: Global, items: &[T]) -> Result<List<T>, OutOfMemory>
    ensures { IfOk result (λ copies. copies ≡ items.now) }
{
    let mut copies = Vec::with_capacity(alloc, items.len())?;
    for item in items {
        copies.push(item.try_copy(alloc)?)?;
    }
    Ok(List::from_vec(copies))
}

impl TryCopy for Dtmi {
    fn try_copy(&self, alloc: Global) -> Result<Dtmi, OutOfMemory> {
        Ok(self.copy(alloc)?)
    }
}

impl TryCopy for Entry {
    fn try_copy(&self, alloc: Global) -> Result<Entry, OutOfMemory> {
        self.copy(alloc)
    }
}

impl TryCopy for EnumEntry {
    fn try_copy(&self, alloc: Global) -> Result<EnumEntry, OutOfMemory> {
        self.copy(alloc)
    }
}

impl TryCopy for Schema {
    fn try_copy(&self, alloc: Global) -> Result<Schema, OutOfMemory> {
        self.copy(alloc)
    }
}

impl TryCopy for ResolvedContent {
    fn try_copy(&self, alloc: Global) -> Result<ResolvedContent, OutOfMemory> {
        self.copy(alloc)
    }
}

impl TryCopy for NamedIn {
    fn try_copy(&self, alloc: Global) -> Result<NamedIn, OutOfMemory> {
        self.copy(alloc)
    }
}

impl TryCopy for PartOf {
    fn try_copy(&self, alloc: Global) -> Result<PartOf, OutOfMemory> {
        self.copy(alloc)
    }
}
