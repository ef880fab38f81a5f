//! Texts without faults, and their interfaces.

ghost use Rattle.std.specs.Prelude.{IfOk, IfSome};
ghost use Rattle.json_tree.specs.Grammar.{Spells};
ghost use Rattle.json_tree.specs.View.{view};
ghost use Rattle.documents.specs.faultless.Machinery.Placed.{DeclaresUploads};

use dt_base::{List, OutOfMemory};
use dtdl_terms::Uploaded;
use json_read::JsonFault;
use json_tree::Tree;
use model_read::{LocalEnd, read_interfaces};
use std::alloc::Global;

/// The value that bytes spell, where they spell one.
pub(crate) fn value_of(alloc: Global, bytes: &[u8]) -> Result<Option<Tree>, OutOfMemory>
    ensures { IfOk result (λ found. IfSome found (λ tree. Spells bytes.now (view tree))) }
{
    match json_read::read(alloc, bytes) {
        Ok(tree) => Ok(Some(tree)),
        Err(JsonFault::OutOfMemory) => Err(OutOfMemory),
        Err(_) => Ok(None),
    }
}

/// The interfaces that a value declares as a document, where it breaks no local rule.
pub(crate) fn uploads_of(
    alloc: Global,
    tree: &Tree,
    document: u32,
) -> Result<Option<List<Uploaded>>, OutOfMemory>
    ensures { IfOk result (λ found. IfSome found (DeclaresUploads (view tree.now) document)) }
{
    match read_interfaces(alloc, tree, document) {
        Ok(uploads) => Ok(Some(uploads)),
        Err(LocalEnd::OutOfMemory) => Err(OutOfMemory),
        Err(LocalEnd::Fault { .. }) => Ok(None),
    }
}
