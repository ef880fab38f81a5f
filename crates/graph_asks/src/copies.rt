//! Copies of lists and of what may be absent.

ghost use Rattle.std.specs.Prelude.{◌≡◌, IfOk};

use dt_base::{List, OutOfMemory, Text};
use dtdl_terms::Uploaded;
use std::alloc::Global;

/// An equal text, where there is one.
pub(crate) fn copy_text(alloc: Global, text: &Option<Text>) -> Result<Option<Text>, OutOfMemory>
    ensures { IfOk result (λ copy. copy ≡ text.now) }
{
    match text {
        Some(text) => Ok(Some(text.copy(alloc)?)),
        None => Ok(None),
    }
}

/// Two equal texts.
pub(crate) fn copy_two(alloc: Global, one: &Text, other: &Text) -> Result<(Text, Text), OutOfMemory>
    ensures { IfOk result (λ copies. copies ≡ (one.now, other.now)) }
{
    let one = one.copy(alloc)?;
    let other = other.copy(alloc)?;
    Ok((one, other))
}

/// Two equal texts, where there are two.
pub(crate) fn copy_pair(
    alloc: Global,
    pair: &Option<(Text, Text)>,
) -> Result<Option<(Text, Text)>, OutOfMemory>
    ensures { IfOk result (λ copy. copy ≡ pair.now) }
{
    match pair {
        Some((one, other)) => Ok(Some(copy_two(alloc, one, other)?)),
        None => Ok(None),
    }
}

/// A list of equal texts, where there is one.
pub(crate) fn copy_texts(
    alloc: Global,
    texts: &Option<List<Text>>,
) -> Result<Option<List<Text>>, OutOfMemory>
    ensures { IfOk result (λ copy. copy ≡ texts.now) }
{
    match texts {
        Some(texts) => Ok(Some(copy_each(alloc, texts.as_slice())?)),
        None => Ok(None),
    }
}

/// A list of equal texts.
fn copy_each(alloc: Global, texts: &[Text]) -> Result<List<Text>, OutOfMemory>
    ensures { IfOk result (λ copies. copies ≡ texts.now) }
{
    let mut copies = Vec::with_capacity(alloc, texts.len())?;
    for text in texts {
        copies.push(text.copy(alloc)?)?;
    }
    Ok(List::from_vec(copies))
}

/// A list of equal interfaces with their places.
pub(crate) fn copy_uploads(
    alloc: Global,
    uploads: &[Uploaded],
) -> Result<List<Uploaded>, OutOfMemory>
    ensures { IfOk result (λ copies. copies ≡ uploads.now) }
{
    let mut copies = Vec::with_capacity(alloc, uploads.len())?;
    for upload in uploads {
        copies.push(upload.copy(alloc)?)?;
    }
    Ok(List::from_vec(copies))
}
