//! Interfaces (DTDL v2, "Interface").

ghost use Rattle.std.specs.Prelude.{◌≡◌, IfOk};

use crate::common::Localized;
use crate::content::{Content, copy_contents};
use crate::copies::copy_all;
use crate::options::copy_text;
use crate::schema::Schema;
use dt_base::names::Dtmi;
use dt_base::{List, OutOfMemory, Text};
use std::alloc::Global;

/// An interface (DTDL v2, "Interface").
#[derive(Debug, Drop)]
pub struct Interface {
    pub id: Dtmi,
    pub comment: Option<Text>,
    pub description: Localized,
    pub display_name: Localized,
    /// The interfaces that it extends, in the order of its document.
    pub parents: List<Dtmi>,
    /// Its contents, in the order of its document.
    pub contents: List<Content>,
    /// The schemas that it declares for use by their identifiers, in the order of its document.
    pub schemas: List<Schema>,
}

impl Interface {
    /// An equal interface in memory of its own.
    pub fn copy(&self, alloc: Global) -> Result<Interface, OutOfMemory>
        ensures { IfOk result (λ copy. copy ≡ self.now) }
    {
        let id = self.id.copy(alloc)?;
        let comment = copy_text(alloc, &self.comment)?;
        let description = self.description.copy(alloc)?;
        let display_name = self.display_name.copy(alloc)?;
        let parents = copy_all(alloc, self.parents.as_slice())?;
        let contents = copy_contents(alloc, self.contents.as_slice())?;
        let schemas = copy_all(alloc, self.schemas.as_slice())?;
        Ok(Interface {
            id,
            comment,
            description,
            display_name,
            parents,
            contents,
            schemas,
        })
    }
}
