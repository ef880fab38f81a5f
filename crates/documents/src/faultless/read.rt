//! The interfaces of a document.

ghost use Rattle.std.specs.Prelude.{◌≡◌, ◌≤◌, length, IfOk, IfSome};
ghost use Rattle.json_tree.specs.Grammar.{Spells};
ghost use Rattle.json_tree.specs.Values.{Json};
ghost use Rattle.documents.specs.batches.Batches.{rest_text};
ghost use Rattle.documents.specs.faultless.Faultless.{IsFaultless};

use crate::batches::{array_start, joined};
use crate::faultless::batches::{add_batch, next_batch};
use crate::faultless::parts::{uploads_of, value_of};
use dt_base::{List, OutOfMemory};
use dtdl_terms::Uploaded;
use std::alloc::Global;

/// The interfaces of a document that is read as one value.
fn interfaces_of_whole(
    alloc: Global,
    bytes: &[u8],
    document: u32,
) -> Result<Option<List<Uploaded>>, OutOfMemory>
    ensures { IfOk result (λ found. IfSome found (IsFaultless bytes.now document)) }
{
    match value_of(alloc, bytes)? {
        Some(tree) => uploads_of(alloc, &tree, document),
        None => Ok(None),
    }
}

/// The interfaces of a document that is an array, whose first element begins here.
fn interfaces_by_batches(
    alloc: Global,
    bytes: &[u8],
    document: u32,
    start: usize,
) -> Result<Option<List<Uploaded>>, OutOfMemory>
    requires within { start ≤ length bytes.now }
    requires spells { (v : Json) → Spells (rest_text bytes.now start) v → Spells bytes.now v }
    ensures { IfOk result (λ found. IfSome found (IsFaultless bytes.now document)) }
{
    joined();
    let mut uploads = Vec::new(alloc);
    let mut guesses = true;
    let mut at = start;
    'batches: while at < bytes.len() {
        let Some(batch) = next_batch(alloc, bytes, document, at, &mut guesses)? else {
            return Ok(None);
        };
        let end = batch.end;
        add_batch(alloc, &mut uploads, batch.uploads)?;
        if end == bytes.len() {
            return Ok(Some(List::from_vec(uploads)));
        }
        at = end + 1;
    }
    Ok(None)
}

/// The interfaces that a document declares as the one of this number, where it has no fault, and with where each stands in it.
/// None says nothing of the document. It comes where there is a fault, which `json_read::read` and `model_read::read_interfaces`
/// then tell, and of the list without elements. Fails only for want of memory.
///
/// A list is read in batches of some thousand bytes, whose values go before the next ones come.
pub fn faultless_interfaces(
    alloc: Global,
    bytes: &[u8],
    document: u32,
) -> Result<Option<List<Uploaded>>, OutOfMemory>
    ensures { IfOk result (λ found. IfSome found (IsFaultless bytes.now document)) }
{
    match array_start(bytes) {
        Some(start) => interfaces_by_batches(alloc, bytes, document, start),
        None => interfaces_of_whole(alloc, bytes, document),
    }
}
