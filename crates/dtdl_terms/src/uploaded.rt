//! Interfaces with where they stand.

ghost use Rattle.std.specs.Prelude.{◌≡◌, IfOk};

use crate::interface::Interface;
use dt_base::{OutOfMemory, Text};
use std::alloc::Global;

/// An interface with where it stands in its document, which is this project's own. The three ordinals are
/// those of members of its object, in the order of the text.
#[derive(Debug, Drop)]
pub struct Uploaded {
    pub interface: Interface,
    /// Which document.
    pub document: u32,
    /// The JSON pointer (RFC 6901) of the interface in its document.
    pub base: Text,
    /// The interface's position in its document.
    pub index: u64,
    /// The ordinal of the member `@id`.
    pub id_at: u64,
    /// The ordinal of the member `extends`, where there is one.
    pub parents_at: Option<u64>,
    /// Whether `extends` is a text alone, and no list.
    pub parents_as_text: bool,
    /// The ordinal of the member `contents`, where there is one.
    pub contents_at: Option<u64>,
}

impl Uploaded {
    /// An equal interface that stands at the same place, in memory of its own.
    pub fn copy(&self, alloc: Global) -> Result<Uploaded, OutOfMemory>
        ensures { IfOk result (λ copy. copy ≡ self.now) }
    {
        let base = self.base.copy(alloc)?;
        let interface = self.interface.copy(alloc)?;
        Ok(Uploaded {
            interface,
            document: self.document,
            base,
            index: self.index,
            id_at: self.id_at,
            parents_at: self.parents_at,
            parents_as_text: self.parents_as_text,
            contents_at: self.contents_at,
        })
    }
}
