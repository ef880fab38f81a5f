ghost use Rattle.std.specs.Prelude.{◌≡◌, ℕ, ◌+◌, ◌-◌, ◌^◌, ◌≤◌, ◌↔◌, List, Option, Some, None, min, IfOk, Contains, [], ◌∷◌};
ghost use Rattle.std.specs.Option.{option_copied};
ghost use Rattle.dt_base.specs.Faults.{Rose};
ghost use Rattle.dt_base.specs.Files.{Fetches, file_named};
ghost use Rattle.dt_base.specs.Shelves.{files_of};
ghost use Rattle.dt_base.specs.declared.shelf.ShelfEnd.TheVariants.{Failed};

use crate::{Fetched, List, Shelf, ShelfEnd, Text};
use std::alloc::Global;

/// A file of a shelf in memory.
#[derive(Debug, Drop)]
pub struct File {
    /// What it is found by.
    pub name: Text,
    /// What it holds.
    pub bytes: List<u8>,
}

/// A shelf in memory, which tells its files and fails where it was told to.
#[derive(Debug, Drop)]
pub struct MemShelf {
    files: List<File>,
    failing: List<u64>,
    fetches: u64,
    faults: u64,
}

impl MemShelf {
    /// A shelf of these files, of which the first of equal names counts. `failing` lists the fetches that are
    /// to fail, counted from 1. It takes no memory.
    pub fn new(files: List<File>, failing: List<u64>) -> MemShelf
        ensures files { ⟦<MemShelf as Shelf>⟧.files result ≡ Some (files_of files) }
        ensures faults { ⟦<MemShelf as Shelf>⟧.faults result ≡ 0 }
        ensures failing { result.failing ≡ failing }
        ensures fetches { result.fetches ≡ 0 }
    {
        MemShelf {
            files,
            failing,
            fetches: 0,
            faults: 0,
        }
    }

    /// The bytes of the first file of a name.
    fn bytes_of(&self, name: &str) -> Option<&List<u8>>
        ensures { option_copied result ≡ file_named (files_of self.now.files) name.now }
    {
        'files: for file in self.files.as_slice() {
            if file.name.as_str() == name {
                return Some(&file.bytes);
            }
        }
        None
    }
}

impl Shelf for MemShelf {
    ghost files = { λ s. Some (files_of s.files) };

    ghost faults = { λ s. s.faults };

    /// Fails exactly at the fetches that are listed.
    fn fetch(&mut self, alloc: Global, name: &str, limit: usize) -> Result<Fetched, ShelfEnd>
        ensures found { IfOk result (Fetches (Some (files_of self.old.files)) name.now limit) }
        ensures cause { result ≡ Err Failed → Rose self.old.faults self.new.faults }
        ensures count { self.old.faults ≤ self.new.faults }
        ensures same { Some (files_of self.new.files) ≡ Some (files_of self.old.files) }
        ensures listed { (result ≡ Err Failed) ↔ Contains self.old.failing self.new.fetches }
        ensures fetches { self.new.fetches ≡ min (self.old.fetches + 1) (2 ^ 64 - 1) }
        ensures list { self.new.failing ≡ self.old.failing }
    {
        self.fetches = self.fetches.saturating_add(1);
        if self.failing.as_slice().contains(&self.fetches) {
            self.faults = self.faults.saturating_add(1);
            return Err(ShelfEnd::Failed);
        }
        let Some(bytes) = self.bytes_of(name) else {
            return Ok(Fetched::Missing);
        };
        if bytes.len() > limit {
            return Ok(Fetched::TooLong);
        }
        let items = Vec::from_slice(alloc, bytes.as_slice())?;
        Ok(Fetched::Bytes(List::from_vec(items)))
    }
}
