//! Sources in memory.

ghost use Rattle.std.specs.Prelude.{None};

use dt_base::{Failed, List, MemSource, OutOfMemory, Source};
use std::alloc::Global;

/// Both of two values, where both were made.
pub fn both<A, B>(
    a: Result<A, OutOfMemory>,
    b: Result<B, OutOfMemory>,
) -> Result<(A, B), OutOfMemory>
where
    A: Drop,
    B: Drop,
{
    let Ok(a) = a else {
        drop(b);
        return Err(OutOfMemory);
    };
    let Ok(b) = b else {
        drop(a);
        return Err(OutOfMemory);
    };
    Ok((a, b))
}

/// A list of these items.
pub fn list_of<T: Copy>(alloc: Global, items: &[T]) -> Result<List<T>, OutOfMemory> {
    Ok(List::from_vec(Vec::from_slice(alloc, items)?))
}

/// The sizes of the first piece of so many bytes and of further ones.
fn pieces_of(
    alloc: Global,
    count: usize,
    first: u64,
    further: u64,
) -> Result<List<u64>, OutOfMemory> {
    let mut pieces = Vec::new(alloc);
    pieces.push(first)?;
    pieces.resize(count, further)?;
    Ok(List::from_vec(pieces))
}

/// A source of these bytes, of whose reads one fails, the first gives at most so many bytes and each further one at most so many.
/// Reads are counted from 1.
pub fn source_of(
    alloc: Global,
    bytes: &[u8],
    failing: u64,
    first: u64,
    further: u64,
) -> Result<MemSource, OutOfMemory> {
    let lists = both(list_of(alloc, bytes), list_of(alloc, &[failing]));
    let pieces = pieces_of(alloc, bytes.len(), first, further);
    let ((bytes, failing), pieces) = both(lists, pieces)?;
    Ok(MemSource::new(bytes, failing, pieces))
}

/// A source that tells how many of its reads have failed.
#[derive(Drop)]
pub struct Watched<S: Source + Drop> {
    source: S,
    pub faults: u64,
}

impl<S: Source + Drop> Watched<S> {
    /// A source of which no read has failed so far.
    pub fn new(source: S) -> Watched<S> {
        Watched { source, faults: 0 }
    }
}

impl<S: Source + Drop> Source for Watched<S> {
    ghost left = { λ s. S.left s.source };

    ghost aside = { λ _. None };

    ghost faults = { λ s. s.faults };

    fn read(&mut self, into: &mut [u8]) -> Result<usize, Failed> {
        match self.source.read(into) {
            Ok(count) => Ok(count),
            Err(_) => {
                self.faults = self.faults.saturating_add(1);
                Err(Failed)
            }
        }
    }
}
