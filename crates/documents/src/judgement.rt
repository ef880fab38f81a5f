//! From documents to their interfaces, or to their first fault.

ghost use Rattle.std.specs.Prelude.{◌≡◌, ◌<◌, ◌≤◌, ◌++◌, [], length, map, slice_get, IfOk, IfSome, MatchResult, Some};
ghost use Rattle.std.specs.List.{AllByRecursion, AllZip};
ghost use Rattle.local_rules.specs.Breaches.{BreaksNoLocalRule};
ghost use Rattle.json_tree.specs.View.{view};
ghost use Rattle.json_tree.specs.Grammar.{Spells};
ghost use Rattle.model_read.specs.Uploads.{AreUploaded};
ghost use Rattle.dtdl_terms.specs.Spots.{spot_text};
ghost use Rattle.dtdl_terms.specs.declared.uploaded.Uploaded.{Uploaded};
ghost use Rattle.extend_resolve.specs.Breaches.{IsSound, set_rule_code};
ghost use Rattle.documents.specs.Lines.{IsBreachLine, IsJsonFaultLine, IsSetBreachLine, pointer_line};
ghost use Rattle.documents.specs.FirstFaults.{AllUploaded, Declare, HasFirstFault, HasJsonFault, HasLocalFault};
ghost use Rattle.documents.specs.Machinery.Documents.{AreFaultless, HasDocumentFault};
ghost use Rattle.documents.specs.Refusing.{IsRefusal};

use crate::faultless::faultless_interfaces;
use crate::lines::{breach_line, fault_line, set_line};
use crate::refusal::Refusal;
use dt_base::{List, OutOfMemory};
use dtdl_terms::{ModelSet, Spot, Uploaded};
use extend_resolve::{SetEnd, SetRule, check_set};
use json_tree::Tree;
use model_read::{LocalEnd, read_interfaces};
use std::alloc::Global;

/// The value that the bytes of a document spell.
fn tree_of(alloc: Global, number: usize, bytes: &[u8]) -> Result<Tree, Refusal>
    ensures { MatchResult result (λ tree. Spells bytes.now (view tree)) (IsRefusal (IsJsonFaultLine number bytes.now)) }
{
    match json_read::read(alloc, bytes) {
        Ok(tree) => Ok(tree),
        Err(fault) => Err(Refusal::Line(fault_line(alloc, number, bytes, &fault)?)),
    }
}

/// The values of all documents.
fn trees_of(alloc: Global, documents: &[List<u8>]) -> Result<List<Tree>, Refusal>
    ensures { MatchResult result (λ trees. AllZip Spells documents.now (map view trees)) (IsRefusal (HasJsonFault documents.now)) }
{
    let mut trees = List::new(alloc);
    for (at, bytes) in documents.iter().enumerate() {
        trees.push(tree_of(alloc, at + 1, bytes.as_slice())?)?;
    }
    Ok(trees)
}

/// The interfaces that a document declares.
fn uploads_in(alloc: Global, number: u32, tree: &Tree) -> Result<List<Uploaded>, Refusal>
    ensures { MatchResult result (λ uploads. BreaksNoLocalRule (view tree.now) × AreUploaded (view tree.now) number uploads) (IsRefusal (IsBreachLine number (view tree.now))) }
{
    match read_interfaces(alloc, tree, number) {
        Ok(uploads) => Ok(uploads),
        Err(LocalEnd::Fault { place, rule }) => Err(Refusal::Line(breach_line(
            alloc,
            number as usize,
            tree,
            &place,
            rule,
        )?)),
        Err(LocalEnd::OutOfMemory) => Err(Refusal::OutOfMemory),
    }
}

/// The interfaces that all documents declare.
fn uploads_of(alloc: Global, trees: &[Tree]) -> Result<Vec<Uploaded>, Refusal>
    requires few { length trees.now ≤ 4096 }
    ensures { MatchResult result
        (λ uploads. AllByRecursion BreaksNoLocalRule (map view trees.now) × AllUploaded 1 (map view trees.now) uploads.items)
        (IsRefusal (HasLocalFault (map view trees.now))) }
{
    let mut uploads = Vec::new(alloc);
    for (at, tree) in trees.iter().enumerate() {
        let mut more = uploads_in(alloc, at as u32 + 1, tree)?;
        uploads.append(&mut more.items)?;
    }
    Ok(uploads)
}

/// The line that names a rule on sets which the interface at a position breaks.
fn line_of(
    alloc: Global,
    uploads: &[Uploaded],
    index: usize,
    spot: &Spot,
    rule: SetRule,
) -> Result<List<u8>, OutOfMemory>
    requires within { index < length uploads.now }
    ensures { IfOk result (λ line. (u : Uploaded) × (slice_get uploads.now index ≡ Some u)
        × (line ≡ pointer_line u.document (u.base ++ spot_text u.parents_as_text spot.now) (set_rule_code rule))) }
{
    set_line(alloc, &uploads[index], spot, rule)
}

/// Judges interfaces by the rules on sets.
fn judge(alloc: Global, uploads: &[Uploaded]) -> Result<(), Refusal>
    ensures { MatchResult result (λ _. IsSound [] uploads.now) (IsRefusal (IsSetBreachLine uploads.now)) }
{
    let none = ModelSet::new(alloc);
    match check_set(alloc, &none, uploads) {
        Ok(()) => Ok(()),
        Err(SetEnd::Fault { index, spot, rule }) => {
            let line = line_of(alloc, uploads, index as usize, &spot, rule)?;
            Err(Refusal::Line(line))
        }
        Err(SetEnd::OutOfMemory) => Err(Refusal::OutOfMemory),
    }
}

/// The interfaces that all documents declare, where each is without a fault, before the rules on sets are asked.
fn faultless_uploads(
    alloc: Global,
    documents: &[List<u8>],
) -> Result<Option<Vec<Uploaded>>, OutOfMemory>
    requires few { length documents.now ≤ 4096 }
    ensures { IfOk result (λ found. IfSome found (λ uploads. AreFaultless 1 documents.now uploads.items)) }
{
    let mut uploads = Vec::new(alloc);
    for (at, bytes) in documents.iter().enumerate() {
        let Some(mut more) = faultless_interfaces(alloc, bytes.as_slice(), at as u32 + 1)? else {
            return Ok(None);
        };
        uploads.append(&mut more.items)?;
    }
    Ok(Some(uploads))
}

/// The interfaces that all documents declare, or the line of the first fault of one, by a value of each document as a whole.
fn uploads_by_values(alloc: Global, documents: &[List<u8>]) -> Result<Vec<Uploaded>, Refusal>
    requires few { length documents.now ≤ 4096 }
    ensures { MatchResult result (λ uploads. AreFaultless 1 documents.now uploads.items) (IsRefusal (HasDocumentFault documents.now)) }
{
    let trees = trees_of(alloc, documents)?;
    uploads_of(alloc, trees.as_slice())
}

/// The interfaces that all documents declare, or the line of the first fault of one.
fn uploads_of_all(alloc: Global, documents: &[List<u8>]) -> Result<Vec<Uploaded>, Refusal>
    requires few { length documents.now ≤ 4096 }
    ensures { MatchResult result (λ uploads. AreFaultless 1 documents.now uploads.items) (IsRefusal (HasDocumentFault documents.now)) }
{
    match faultless_uploads(alloc, documents)? {
        Some(uploads) => Ok(uploads),
        None => uploads_by_values(alloc, documents),
    }
}

/// The interfaces that documents declare, or the line of their first fault.
///
/// Lists are read batch by batch as long as no document has a fault. Where one has, or is the empty list, a value of each document as
/// a whole is made in place of this, and the first fault is told of these.
pub fn declared_by(alloc: Global, documents: &[List<u8>]) -> Result<Vec<Uploaded>, Refusal>
    requires few { length documents.now ≤ 4096 }
    ensures { MatchResult result (λ uploads. Declare documents.now uploads.items) (IsRefusal (HasFirstFault documents.now)) }
{
    let uploads = uploads_of_all(alloc, documents)?;
    judge(alloc, &uploads)?;
    Ok(uploads)
}
