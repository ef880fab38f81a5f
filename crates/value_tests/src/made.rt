//! What is made of texts that are known to be right, so that nothing fails but for want of memory.

use dt_base::names::{Dtmi, Name};
use dt_base::{List, OutOfMemory};
use dtdl_terms::Localized;
use json_read::read;
use json_tree::{Tree, print};
use std::alloc::Global;

/// Both of two values, where both were made.
pub fn both<A, B>(
    a: Result<A, OutOfMemory>,
    b: Result<B, OutOfMemory>,
) -> Result<(A, B), OutOfMemory>
where
    A: Drop,
    B: Drop,
{
    let Ok(a) = a else {
        drop(b);
        return Err(OutOfMemory);
    };
    let Ok(b) = b else {
        drop(a);
        return Err(OutOfMemory);
    };
    Ok((a, b))
}

/// A list with one item more, where both were made.
pub fn with<T: Drop>(
    list: Result<List<T>, OutOfMemory>,
    item: Result<T, OutOfMemory>,
) -> Result<List<T>, OutOfMemory> {
    let (mut list, item) = both(list, item)?;
    match list.push(item) {
        Ok(()) => Ok(list),
        Err(_) => {
            drop(list);
            Err(OutOfMemory)
        }
    }
}

/// The identifier that a text is.
pub fn id_of(alloc: Global, text: &str) -> Result<Dtmi, OutOfMemory> {
    Dtmi::read(alloc, text).map_err(|_| OutOfMemory)
}

/// The name that a text is.
pub fn name_of(alloc: Global, text: &str) -> Result<Name, OutOfMemory> {
    Name::read(alloc, text).map_err(|_| OutOfMemory)
}

/// The tree that a text spells.
pub fn tree_of(alloc: Global, text: &str) -> Result<Tree, OutOfMemory> {
    read(alloc, text.as_bytes()).map_err(|_| OutOfMemory)
}

/// The text of a tree.
pub fn tree_text(alloc: Global, tree: &Tree) -> Result<String, OutOfMemory> {
    print(alloc, tree)?.into_string(alloc)
}

/// No text in any language.
pub fn no_texts(alloc: Global) -> Localized {
    Localized {
        entries: List::new(alloc),
    }
}
