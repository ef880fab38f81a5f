//! The documents of a run, fetched or read whole.

ghost use Rattle.std.specs.Prelude.{◌≡◌, ◌≢◌, ℕ, ◌≤◌, List, [], ◌∷◌, map, string_bytes, Some};
ghost use Rattle.std.specs.List.{AllZip};
ghost use Rattle.dt_base.specs.Faults.{Rose};
ghost use Rattle.dtdl_cmd.specs.Documents.{AreFound, HasUnder, Held};
ghost use Rattle.dtdl_cmd.specs.Runs.{HasReadFault};
ghost use Rattle.dtdl_cmd.specs.Machinery.Gathering.{IsFetched, AreDocumentsGathered};
ghost use Rattle.dtdl_cmd.specs.declared.inputs.NoDocuments.{NoDocuments};

use dt_base::{Fetched, List, OutOfMemory, ReadEnd, Shelf, ShelfEnd, Source, read_all};
use std::alloc::Global;
use thiserror::Error;

/// How many bytes the documents of one run may have together.
pub const MAX_BYTES: usize = 16_777_216;

/// Why the documents of a run are not all there. They are counted from 1.
#[derive(Clone, Copy, Debug, PartialEq, Eq, Error)]
pub enum NoDocuments {
    /// The document of this number is missing.
    #[error("a document is missing")]
    Missing { number: usize },
    /// With the document of this number the sum of the bytes passes the limit.
    #[error("the documents are too long")]
    TooLong { number: usize },
    /// A read failed.
    #[error("a read failed")]
    ReadFault,
    /// There was no memory.
    #[error("out of memory")]
    OutOfMemory,
}

impl From<OutOfMemory> for NoDocuments {
    ghost from_gives = { λ _ end. end ≡ NoDocuments.OutOfMemory };

    fn from(_error: OutOfMemory) -> NoDocuments {
        NoDocuments::OutOfMemory
    }
}

/// The document of a number, by its name, with so much room left.
fn document_named<F: Shelf>(
    alloc: Global,
    number: usize,
    name: &str,
    room: usize,
    shelf: &mut F,
) -> Result<List<u8>, NoDocuments>
    ensures fetched { IsFetched (F.files shelf.old) name.now number room (Rose (F.faults shelf.old) (F.faults shelf.new)) result }
    ensures count { F.faults shelf.old ≤ F.faults shelf.new }
    ensures same { F.files shelf.new ≡ F.files shelf.old }
{
    match shelf.fetch(alloc, name, room) {
        Ok(Fetched::Bytes(bytes)) => Ok(bytes),
        Ok(Fetched::Missing) => Err(NoDocuments::Missing { number }),
        Ok(Fetched::TooLong) => Err(NoDocuments::TooLong { number }),
        Err(ShelfEnd::Failed) => Err(NoDocuments::ReadFault),
        Err(ShelfEnd::OutOfMemory) => Err(NoDocuments::OutOfMemory),
    }
}

/// The files of these names, in their order.
fn documents_named<F: Shelf>(
    alloc: Global,
    names: &[String],
    shelf: &mut F,
) -> Result<List<List<u8>>, NoDocuments>
    ensures gathered { AreDocumentsGathered (AllZip (λ name document. HasUnder (F.files shelf.old) (string_bytes name) document) names.now) (Rose (F.faults shelf.old) (F.faults shelf.new)) result }
    ensures count { F.faults shelf.old ≤ F.faults shelf.new }
    ensures same { F.files shelf.new ≡ F.files shelf.old }
{
    let mut documents = List::new(alloc);
    let mut room = MAX_BYTES;
    for (at, name) in names.iter().enumerate() {
        let bytes = document_named(alloc, at + 1, name.as_str(), room, shelf)?;
        room -= bytes.len();
        documents.push(bytes)?;
    }
    Ok(documents)
}

/// The one document that the input is.
fn document_read<S: Source>(alloc: Global, input: &mut S) -> Result<List<List<u8>>, NoDocuments>
    ensures gathered { AreDocumentsGathered (λ found. (bytes : List ℕ) × (found ≡ Some bytes ∷ [])
        × Held (record { before = S.left input.old; after = S.left input.new; faults_before = S.faults input.old; faults_after = S.faults input.new }) bytes)
        (Rose (S.faults input.old) (S.faults input.new)) result }
    ensures count { S.faults input.old ≤ S.faults input.new }
    ensures beside { S.aside input.new ≡ S.aside input.old }
{
    let bytes = match read_all(alloc, input, MAX_BYTES) {
        Ok(bytes) => bytes,
        Err(ReadEnd::ReadFault) => return Err(NoDocuments::ReadFault),
        Err(ReadEnd::TooLong) => return Err(NoDocuments::TooLong { number: 1 }),
        Err(ReadEnd::OutOfMemory) => return Err(NoDocuments::OutOfMemory),
    };
    let mut documents = List::new(alloc);
    documents.push(bytes)?;
    Ok(documents)
}

/// The documents of a run: the files of these names, or without names what the input holds. What is not used stays
/// as it was.
pub fn documents_of<S: Source, F: Shelf>(
    alloc: Global,
    names: &[String],
    input: &mut S,
    shelf: &mut F,
) -> Result<List<List<u8>>, NoDocuments>
    ensures gathered { AreDocumentsGathered
        (AreFound (record { before = S.left input.old; after = S.left input.new; faults_before = S.faults input.old; faults_after = S.faults input.new })
        (record { before = F.files shelf.old; after = F.files shelf.new; faults_before = F.faults shelf.old; faults_after = F.faults shelf.new })
        (map string_bytes names.now))
        (HasReadFault (record { before = S.left input.old; after = S.left input.new; faults_before = S.faults input.old; faults_after = S.faults input.new })
        (record { before = F.files shelf.old; after = F.files shelf.new; faults_before = F.faults shelf.old; faults_after = F.faults shelf.new })
        (map string_bytes names.now)) result }
    ensures input_count { S.faults input.old ≤ S.faults input.new }
    ensures input_beside { S.aside input.new ≡ S.aside input.old }
    ensures shelf_count { F.faults shelf.old ≤ F.faults shelf.new }
    ensures shelf_same { F.files shelf.new ≡ F.files shelf.old }
    ensures unread { names.now ≢ [] → input.new ≡ input.old }
    ensures unasked { names.now ≡ [] → shelf.new ≡ shelf.old }
{
    if names.is_empty() {
        document_read(alloc, input)
    } else {
        documents_named(alloc, names, shelf)
    }
}
