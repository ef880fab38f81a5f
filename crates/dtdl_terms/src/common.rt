//! What every element may have.

ghost use Rattle.std.specs.Prelude.{◌≡◌, IfOk};

use crate::copies::copy_all;
use crate::options::{copy_id, copy_text};
use dt_base::names::Dtmi;
use dt_base::{List, OutOfMemory, Text};
use std::alloc::Global;

/// A text in one language (DTDL v2, "Internationalization").
#[derive(Debug, Drop)]
pub struct Entry {
    /// The code of the language.
    pub language: Text,
    pub text: Text,
}

impl Entry {
    /// An equal entry in memory of its own.
    pub fn copy(&self, alloc: Global) -> Result<Entry, OutOfMemory>
        ensures { IfOk result (λ copy. copy ≡ self.now) }
    {
        let language = self.language.copy(alloc)?;
        let text = self.text.copy(alloc)?;
        Ok(Entry { language, text })
    }
}

/// A text in some languages, in the order of its document; in none where it is absent (DTDL v2,
/// "Internationalization").
#[derive(Debug, Drop)]
pub struct Localized {
    pub entries: List<Entry>,
}

impl Localized {
    /// An equal text in memory of its own.
    pub fn copy(&self, alloc: Global) -> Result<Localized, OutOfMemory>
        ensures { IfOk result (λ copy. copy ≡ self.now) }
    {
        let entries = copy_all(alloc, self.entries.as_slice())?;
        Ok(Localized { entries })
    }
}

/// What every element may have: its identifier, its comment, its description and its display name
/// (DTDL v2, the properties `@id`, `comment`, `description` and `displayName`).
#[derive(Debug, Drop)]
pub struct Common {
    pub id: Option<Dtmi>,
    pub comment: Option<Text>,
    pub description: Localized,
    pub display_name: Localized,
}

impl Common {
    /// Equal properties in memory of their own.
    pub fn copy(&self, alloc: Global) -> Result<Common, OutOfMemory>
        ensures { IfOk result (λ copy. copy ≡ self.now) }
    {
        let id = copy_id(alloc, &self.id)?;
        let comment = copy_text(alloc, &self.comment)?;
        let description = self.description.copy(alloc)?;
        let display_name = self.display_name.copy(alloc)?;
        Ok(Common {
            id,
            comment,
            description,
            display_name,
        })
    }
}
