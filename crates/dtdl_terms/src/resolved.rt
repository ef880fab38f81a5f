//! What an interface has with all that it inherits.

ghost use Rattle.std.specs.Prelude.{◌≡◌, IfOk};

use crate::content::Content;
use crate::copies::copy_all;
use crate::schema::Schema;
use dt_base::names::Dtmi;
use dt_base::{List, OutOfMemory};
use std::alloc::Global;

/// An interface with all that it inherits (DTDL v2, "Interface", the property `extends`) and with what its components
/// consist of. A reference to a schema stays a reference: in a content that comes from an interface it names one of the
/// `schemas` of that interface.
#[derive(Debug, Drop)]
pub struct Resolved {
    /// The contents that it and its ancestors declare.
    pub contents: List<ResolvedContent>,
    /// Its ancestors, itself included.
    pub ancestors: List<Dtmi>,
    /// The schemas that each interface declares from which a content here comes.
    pub named: List<NamedIn>,
    /// The interfaces that components of `contents` name, each once.
    pub parts: List<PartOf>,
}

/// A content, and the interface that declares it.
#[derive(Debug, Drop)]
pub struct ResolvedContent {
    pub from: Dtmi,
    pub content: Content,
}

/// The schemas that an interface declares for use by their identifiers.
#[derive(Debug, Drop)]
pub struct NamedIn {
    pub of: Dtmi,
    pub schemas: List<Schema>,
}

/// The contents that an interface and its ancestors declare.
#[derive(Debug, Drop)]
pub struct PartOf {
    pub of: Dtmi,
    pub contents: List<ResolvedContent>,
}

impl Resolved {
    /// An equal interface in memory of its own.
    pub fn copy(&self, alloc: Global) -> Result<Resolved, OutOfMemory>
        ensures { IfOk result (λ copy. copy ≡ self.now) }
    {
        let ancestors = copy_all(alloc, self.ancestors.as_slice())?;
        let contents = copy_all(alloc, self.contents.as_slice())?;
        let named = copy_all(alloc, self.named.as_slice())?;
        let parts = copy_all(alloc, self.parts.as_slice())?;
        Ok(Resolved {
            contents,
            ancestors,
            named,
            parts,
        })
    }
}

impl ResolvedContent {
    /// An equal content in memory of its own.
    pub fn copy(&self, alloc: Global) -> Result<ResolvedContent, OutOfMemory>
        ensures { IfOk result (λ copy. copy ≡ self.now) }
    {
        let from = self.from.copy(alloc)?;
        let content = self.content.copy(alloc)?;
        Ok(ResolvedContent { from, content })
    }
}

impl NamedIn {
    /// Equal schemas in memory of their own.
    pub fn copy(&self, alloc: Global) -> Result<NamedIn, OutOfMemory>
        ensures { IfOk result (λ copy. copy ≡ self.now) }
    {
        let of = self.of.copy(alloc)?;
        let schemas = copy_all(alloc, self.schemas.as_slice())?;
        Ok(NamedIn { of, schemas })
    }
}

impl PartOf {
    /// Equal contents in memory of their own.
    pub fn copy(&self, alloc: Global) -> Result<PartOf, OutOfMemory>
        ensures { IfOk result (λ copy. copy ≡ self.now) }
    {
        let of = self.of.copy(alloc)?;
        let contents = copy_all(alloc, self.contents.as_slice())?;
        Ok(PartOf { of, contents })
    }
}
