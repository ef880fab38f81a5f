ghost use Rattle.std.specs.Prelude.{◌≡◌, ℕ, ◌≤◌, List, Option, Some, None, [], IfOk};
ghost use Rattle.dt_base.specs.Faults.{Rose};
ghost use Rattle.dt_base.specs.Files.{Fetches};
ghost use Rattle.dt_base.specs.declared.shelf.ShelfEnd.TheVariants.{Failed};

use crate::List;
use std::alloc::{AllocError, Global};
use thiserror::Error;

/// What a shelf has under a name.
#[derive(Debug, Drop)]
pub enum Fetched {
    /// No file has the name.
    Missing,
    /// The file has more bytes than the limit.
    TooLong,
    /// The file's bytes, at most as many as the limit.
    Bytes(List<u8>),
}

/// Why a fetch gave no answer.
#[derive(Clone, Copy, Debug, PartialEq, Eq, Hash, Error)]
pub enum ShelfEnd {
    /// The shelf failed. Its count of faults rose.
    #[error("the shelf failed")]
    Failed,
    /// There was no memory for the bytes.
    #[error("out of memory")]
    OutOfMemory,
}

impl From<AllocError> for ShelfEnd {
    ghost use Rattle.dt_base.specs.declared.shelf.ShelfEnd.TheVariants.{OutOfMemory};

    ghost from_gives = { λ _ e. e ≡ OutOfMemory };

    fn from(_error: AllocError) -> ShelfEnd {
        ShelfEnd::OutOfMemory
    }
}

/// A shelf of files, which are found by their names.
///
/// A shelf in memory tells its `files`, as pairs of a name and bytes of which the first of equal names
/// counts; a folder does not. `faults` counts the failures so far.
pub trait Shelf {
    ghost files: { Self → Option (List (List ℕ × List ℕ)) };

    ghost faults: { Self → ℕ };

    /// What the shelf has under a name, within a limit in bytes. The files stay as they are.
    fn fetch(&mut self, alloc: Global, name: &str, limit: usize) -> Result<Fetched, ShelfEnd>
        ensures found { IfOk result (Fetches (files self.old) name.now limit) }
        ensures cause { result ≡ Err Failed → Rose (faults self.old) (faults self.new) }
        ensures count { faults self.old ≤ faults self.new }
        ensures same { files self.new ≡ files self.old };
}

/// The shelf without files, which never fails.
#[derive(Clone, Copy, Debug, PartialEq, Eq, Hash)]
pub struct QuietShelf;

impl Shelf for QuietShelf {
    ghost files = { λ _. Some [] };

    ghost faults = { λ _. 0 };

    fn fetch(&mut self, _alloc: Global, _name: &str, _limit: usize) -> Result<Fetched, ShelfEnd> {
        Ok(Fetched::Missing)
    }
}
