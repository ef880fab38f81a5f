//! Reading a document.

ghost use Rattle.std.specs.Prelude.{◌≡◌, ◌∷◌, [], ℕ, List, IfOk};
ghost use Rattle.std.specs.List.{AllZip, enumerate_from};
ghost use Rattle.json_tree.specs.Values.{Json, array, object};
ghost use Rattle.json_tree.specs.View.{view, members_view, elements_view};
ghost use Rattle.json_tree.specs.Places.{StandsAt};
ghost use Rattle.local_rules.specs.Breaches.{IsBreach};
ghost use Rattle.json_tree.specs.Members.{list_of};
ghost use Rattle.local_rules.specs.declared.rule.LocalRule.{LocalRule};
ghost use Rattle.model_read.specs.Ends.{IsRightEnd};
ghost use Rattle.model_read.specs.Uploads.{AreUploaded, IsUploaded, IsUploadedAt};
ghost use Rattle.model_read.specs.Machinery.Shapes.{EachIs, InterfaceShape, IsValidInterface};

use crate::end::LocalEnd;
use crate::interfaces::interface_in;
use crate::parts::{list_of_one, members_of};
use crate::places::{has_text, ordinal_at, wanted_ordinal};
use dt_base::{List, OutOfMemory};
use dtdl_terms::Uploaded;
use json_tree::{Member, Place, Tree, pointer_of};
use local_faults::{Breach, first_breach};
use std::alloc::Global;

/// The interface that members declare, with where it stands in the document.
fn uploaded_in(
    alloc: Global,
    whole: &Tree,
    place: &Place,
    index: u64,
    document: u32,
    members: &[Member],
) -> Result<Uploaded, OutOfMemory>
    requires shaped { InterfaceShape (members_view members.now) }
    requires placed { (part : Json) × StandsAt (view whole.now) place.now.steps part }
    ensures { IfOk result (λ u. IsUploaded (view whole.now) place.now.steps index document (object (members_view members.now)) u) }
{
    let base = pointer_of(alloc, whole, place)?;
    let interface = interface_in(alloc, members)?;
    let id_at = wanted_ordinal(members, "@id");
    Ok(Uploaded {
        interface,
        document,
        base: base.text,
        index,
        id_at,
        parents_at: ordinal_at(members, "extends"),
        parents_as_text: has_text(members, "extends"),
        contents_at: ordinal_at(members, "contents"),
    })
}

/// The interface that a document is.
fn one_upload(
    alloc: Global,
    tree: &Tree,
    document: u32,
    members: &[Member],
) -> Result<List<Uploaded>, OutOfMemory>
    requires shaped { InterfaceShape (members_view members.now) }
    requires whole { view tree.now ≡ object (members_view members.now) }
    ensures { IfOk result (λ us. AreUploaded (view tree.now) document us) }
{
    let place = Place {
        steps: List::new(alloc),
    };
    let upload = uploaded_in(alloc, tree, &place, 0, document, members);
    drop(place);
    let uploads = list_of_one(alloc, upload?)?;
    Ok(uploads)
}

/// The place of an entry of a document that is a list.
fn place_of(alloc: Global, at: u64) -> Result<Place, OutOfMemory>
    ensures { IfOk result (λ p. p.steps ≡ at ∷ []) }
{
    let steps = list_of_one(alloc, at)?;
    Ok(Place { steps })
}

/// The interface that an entry of a document declares.
fn uploaded_at(
    alloc: Global,
    whole: &Tree,
    at: u64,
    document: u32,
    entry: &Tree,
) -> Result<Uploaded, OutOfMemory>
    requires valid { IsValidInterface (view entry.now) }
    requires placed { StandsAt (view whole.now) (at ∷ []) (view entry.now) }
    ensures { IfOk result (λ u. IsUploaded (view whole.now) (at ∷ []) at document (view entry.now) u) }
{
    let members = members_of(entry);
    let place = place_of(alloc, at)?;
    let upload = uploaded_in(alloc, whole, &place, at, document, members);
    drop(place);
    upload
}

/// The interfaces that the entries of a document declare.
fn uploads_of(
    alloc: Global,
    whole: &Tree,
    document: u32,
    entries: &[Tree],
) -> Result<List<Uploaded>, OutOfMemory>
    requires valid { EachIs IsValidInterface (elements_view entries.now) }
    requires whole { view whole.now ≡ array (elements_view entries.now) }
    ensures { IfOk result (λ us. AllZip (IsUploadedAt (view whole.now) document) (enumerate_from 0 (list_of (elements_view entries.now))) us) }
{
    let mut uploads = Vec::with_capacity(alloc, entries.len())?;
    for (at, entry) in entries.iter().enumerate() {
        uploads.push(uploaded_at(alloc, whole, at as u64, document, entry)?)?;
    }
    Ok(List::from_vec(uploads))
}

/// The interfaces of a document.
#[tactic(auto, using(json_tree::proofs::Views::views))]
fn uploads_in(alloc: Global, tree: &Tree, document: u32) -> Result<List<Uploaded>, OutOfMemory>
    requires { (place : List ℕ) (broken : LocalRule) → IsBreach (view tree.now) place broken → ⊥ }
    ensures { IfOk result (λ us. AreUploaded (view tree.now) document us) }
{
    match tree {
        Tree::Members(members) => one_upload(alloc, tree, document, members.as_slice()),
        Tree::List(entries) => uploads_of(alloc, tree, document, entries.as_slice()),
        Tree::Null | Tree::Bool(_) | Tree::Number(_) | Tree::Text(_) => unreachable!(),
    }
}

/// The interfaces that a document declares, with where each stands in it; the document is an interface or a list of
/// interfaces (DTDL v2, "Interface"; the list is this project's own). `document` is written into each of them.
///
/// `Fault` comes with the first breach of the local rules, and exactly where there is one and enough memory.
/// `OutOfMemory` says nothing of the document.
pub fn read_interfaces(
    alloc: Global,
    tree: &Tree,
    document: u32,
) -> Result<List<Uploaded>, LocalEnd>
    ensures fault { IsRightEnd (view tree.now) result }
    ensures declares { IfOk result (λ ups. AreUploaded (view tree.now) document ups) }
{
    if let Some(breach) = first_breach(alloc, tree)? {
        let Breach { place, rule } = breach;
        return Err(LocalEnd::Fault { place, rule });
    }
    Ok(uploads_in(alloc, tree, document)?)
}
