//! The interfaces of one batch, behind those of the batches before.

ghost use Rattle.std.specs.Prelude.{◌≡◌, ◌<◌, ◌≤◌, ◌++◌, ℕ, List, length, slice_index, IfOk, IfSome, OnOk};
ghost use Rattle.json_tree.specs.Values.{Json};
ghost use Rattle.documents.specs.faultless.Machinery.Placed.{AreReadElements, IsBatch, IsNextBatch, numbered, standing_at};

use crate::batches::{batch_end, likely_end, put_batch};
use crate::faultless::parts::{uploads_of, value_of};
use dt_base::{List, OutOfMemory, Text};
use dtdl_terms::Uploaded;
use json_tree::Tree;
use std::alloc::Global;

/// A batch that was read: it has some elements and no fault.
#[derive(Drop)]
pub(crate) struct Batch {
    /// The position of the comma behind it, or else the end of the document.
    pub(crate) end: usize,
    /// The interfaces of its elements, as those of a document of their own.
    pub(crate) uploads: List<Uploaded>,
}

/// The interface as that at this position of its document, which is a list.
fn standing_at(alloc: Global, upload: Uploaded, index: u64) -> Result<Uploaded, OutOfMemory>
    ensures { IfOk result (λ u. u ≡ standing_at index upload) }
{
    let mut upload = upload;
    upload.base = Text::from_string(format!(in alloc; "/{index}")?);
    upload.index = index;
    Ok(upload)
}

/// Puts interfaces behind others, each as that at the next position of its document.
fn put_behind(
    alloc: Global,
    uploads: &mut Vec<Uploaded>,
    more: List<Uploaded>,
) -> Result<(), OutOfMemory>
    ensures { OnOk result (uploads.new.items ≡ uploads.old.items ++ numbered (length uploads.old.items) more) }
{
    'more: for upload in more.items {
        let index = uploads.len() as u64;
        uploads.push(standing_at(alloc, upload, index)?)?;
    }
    Ok(())
}

/// The interfaces of the elements of an array with this text, where it has some and no fault.
fn interfaces_of_batch(
    alloc: Global,
    text: &[u8],
    document: u32,
) -> Result<Option<List<Uploaded>>, OutOfMemory>
    ensures { IfOk result (λ found. IfSome found (λ uploads. (vs : List Json) × IsBatch text.now document vs uploads)) }
{
    let Some(tree) = value_of(alloc, text)? else {
        return Ok(None);
    };
    let Tree::List(elements) = &tree else {
        return Ok(None);
    };
    if elements.is_empty() {
        return Ok(None);
    }
    uploads_of(alloc, &tree, document)
}

/// The batch between two positions, where it has some elements and no fault.
fn batch_between(
    alloc: Global,
    bytes: &[u8],
    document: u32,
    at: usize,
    end: usize,
) -> Result<Option<Batch>, OutOfMemory>
    requires forward { at ≤ end }
    requires within { end ≤ length bytes.now }
    requires comma { end < length bytes.now → slice_index bytes.now end ≡ 44 }
    ensures { IfOk result (λ found. IfSome found (λ batch. IsNextBatch bytes.now document at batch.end batch.uploads)) }
{
    let mut text = Vec::new(alloc);
    put_batch(&mut text, bytes, at, end)?;
    match interfaces_of_batch(alloc, &text, document)? {
        Some(uploads) => Ok(Some(Batch { end, uploads })),
        None => Ok(None),
    }
}

/// Where the batch that begins at a position is first taken to end.
fn first_end(bytes: &[u8], at: usize, guesses: bool) -> usize
    requires { at ≤ length bytes.now }
    ensures forward { at ≤ result }
    ensures within { result ≤ length bytes.now }
    ensures comma { result < length bytes.now → slice_index bytes.now result ≡ 44 }
{
    if guesses {
        likely_end(bytes, at)
    } else {
        batch_end(bytes, at)
    }
}

/// The batch that begins at a position, where it has some elements and no fault. As long as `guesses` is set, it is first read up to
/// where it likely ends. Where that is not read, it is read up to where a scan says that it ends, and no more ends are guessed, so
/// that a document pays for one wrong guess at most.
pub(crate) fn next_batch(
    alloc: Global,
    bytes: &[u8],
    document: u32,
    at: usize,
    guesses: &mut bool,
) -> Result<Option<Batch>, OutOfMemory>
    requires { at ≤ length bytes.now }
    ensures { IfOk result (λ found. IfSome found (λ batch. IsNextBatch bytes.now document at batch.end batch.uploads)) }
{
    let first = first_end(bytes, at, *guesses);
    if let Some(batch) = batch_between(alloc, bytes, document, at, first)? {
        return Ok(Some(batch));
    }
    let end = batch_end(bytes, at);
    if end == first {
        return Ok(None);
    }
    *guesses = false;
    batch_between(alloc, bytes, document, at, end)
}

/// Puts the interfaces of a batch behind those of the elements before.
pub(crate) fn add_batch(
    alloc: Global,
    uploads: &mut Vec<Uploaded>,
    more: List<Uploaded>,
) -> Result<(), OutOfMemory>
    ensures { OnOk result ((text : List ℕ) (document : ℕ) (before vs : List Json) → AreReadElements document before uploads.old.items
        → IsBatch text document vs more → AreReadElements document (before ++ vs) uploads.new.items) }
{
    put_behind(alloc, uploads, more)?;
    Ok(())
}
