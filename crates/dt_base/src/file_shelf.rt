ghost use Rattle.std.specs.Prelude.{◌≡◌, ◌≤◌, None, IfOk};
ghost use Rattle.dt_base.specs.Faults.{Rose};
ghost use Rattle.dt_base.specs.Files.{Fetches};
ghost use Rattle.dt_base.specs.declared.shelf.ShelfEnd.TheVariants.{Failed};

use crate::{Fetched, ReadEnd, Shelf, ShelfEnd, StdSource, read_all};
use std::alloc::Global;
use std::fs;
use std::io::ErrorKind;
use std::rt::Files;

/// The files of the system, by their paths. It tells nothing of them.
///
/// A name that no file has, or of which a folder before the last slash is not there, is missing. A fetch fails
/// at any other name that cannot be opened and read, as that of a folder or of a file that may not be read.
#[derive(Drop)]
pub struct FileShelf<R: Files + Drop> {
    system: R,
    faults: u64,
}

impl<R: Files + Drop> FileShelf<R> {
    /// A shelf over the system, with no fault so far.
    pub fn new(system: R) -> FileShelf<R>
        ensures files { ⟦<FileShelf<R> as Shelf>⟧.files result ≡ None }
        ensures faults { ⟦<FileShelf<R> as Shelf>⟧.faults result ≡ 0 }
    {
        FileShelf { system, faults: 0 }
    }

    fn fail(&mut self) -> ShelfEnd
        ensures failed { result ≡ Failed }
        ensures counted { Rose self.old.faults self.new.faults }
        ensures count { self.old.faults ≤ self.new.faults }
    {
        self.faults = self.faults.saturating_add(1);
        ShelfEnd::Failed
    }
}

impl<R: Files + Drop> Shelf for FileShelf<R> {
    ghost files = { λ _. None };

    ghost faults = { λ s. s.faults };

    /// Opens the file and reads at most one byte more than the limit of it.
    fn fetch(&mut self, alloc: Global, name: &str, limit: usize) -> Result<Fetched, ShelfEnd> {
        let file = match fs::open(&self.system, name) {
            Ok(file) => file,
            Err(error) if error.kind() == ErrorKind::NotFound => return Ok(Fetched::Missing),
            Err(_) => return Err(self.fail()),
        };
        match read_all(alloc, &mut StdSource::new(file), limit) {
            Ok(bytes) => Ok(Fetched::Bytes(bytes)),
            Err(ReadEnd::TooLong) => Ok(Fetched::TooLong),
            Err(ReadEnd::ReadFault) => Err(self.fail()),
            Err(ReadEnd::OutOfMemory) => Err(ShelfEnd::OutOfMemory),
        }
    }
}
