//! Texts, names and identifiers, as values and under keys.

ghost use Rattle.std.specs.Prelude.{◌≡◌, IfOk};
ghost use Rattle.dt_base.specs.declared.names.fault.NameFault.TheVariants as faults;
ghost use Rattle.json_tree.specs.Values.{text};
ghost use Rattle.json_tree.specs.View.{view, members_view};
ghost use Rattle.local_rules.specs.Quantities.{IsStringValue};
ghost use Rattle.local_rules.specs.Declarations.{IsIdentifier, HasString, HasOptionalString, HasId, HasOptionalId};
ghost use Rattle.model_read.specs.Machinery.Shapes.{CanBeId, CanBeName, HasMember, MayHave};

use crate::parts::wanted;
use dt_base::names::{Dtmi, Name, NameFault};
use dt_base::{OutOfMemory, Text};
use json_tree::{Member, Tree, value_at};
use std::alloc::Global;

/// The text that a value is.
#[tactic(auto, using(json_tree::proofs::Views::views))]
pub fn bytes_of(tree: &Tree) -> &str
    requires { IsStringValue (view tree.now) }
    ensures { view tree.now ≡ text result.now }
{
    match tree {
        Tree::Text(text) => text.as_str(),
        Tree::Null | Tree::Bool(_) | Tree::Number(_) | Tree::List(_) | Tree::Members(_) => {
            unreachable!()
        }
    }
}

/// The text that a value is, in memory of its own.
pub fn text_of(alloc: Global, tree: &Tree) -> Result<Text, OutOfMemory>
    requires { IsStringValue (view tree.now) }
    ensures { IfOk result (λ t. view tree.now ≡ text t) }
{
    let bytes = bytes_of(tree);
    Text::from_str(alloc, bytes)
}

/// Why a text of the grammar was not read: for want of memory alone.
fn want_of_memory(fault: NameFault) -> OutOfMemory
    requires { fault ≡ faults.OutOfMemory }
{
    match fault {
        NameFault::OutOfMemory => OutOfMemory,
        _ => unreachable!(),
    }
}

/// The name that a text is.
fn name_in(alloc: Global, bytes: &str) -> Result<Name, OutOfMemory>
    requires { CanBeName (text bytes.now) }
    ensures { IfOk result (λ name. name ≡ bytes.now) }
{
    Ok(Name::of(alloc, bytes)?)
}

/// The name that a value is.
pub fn name_of(alloc: Global, tree: &Tree) -> Result<Name, OutOfMemory>
    requires { CanBeName (view tree.now) }
    ensures { IfOk result (λ name. view tree.now ≡ text name) }
{
    let bytes = bytes_of(tree);
    name_in(alloc, bytes)
}

/// The identifier that a text is.
pub fn id_in(alloc: Global, bytes: &str) -> Result<Dtmi, OutOfMemory>
    requires { CanBeId (text bytes.now) }
    ensures { IfOk result (λ id. IsIdentifier (text bytes.now) id) }
{
    match Dtmi::read(alloc, bytes) {
        Ok(id) => Ok(id),
        Err(fault) => Err(want_of_memory(fault)),
    }
}

/// The identifier that a value is.
pub fn id_of(alloc: Global, tree: &Tree) -> Result<Dtmi, OutOfMemory>
    requires { CanBeId (view tree.now) }
    ensures { IfOk result (λ id. IsIdentifier (view tree.now) id) }
{
    let bytes = bytes_of(tree);
    id_in(alloc, bytes)
}

/// The name under a key.
pub fn name_at(alloc: Global, members: &[Member], key: &str) -> Result<Name, OutOfMemory>
    requires { HasMember CanBeName key.now (members_view members.now) }
    ensures { IfOk result (λ name. HasString key.now (members_view members.now) name) }
{
    name_of(alloc, wanted(members, key))
}

/// The identifier under a key.
pub fn id_at(alloc: Global, members: &[Member], key: &str) -> Result<Dtmi, OutOfMemory>
    requires { HasMember CanBeId key.now (members_view members.now) }
    ensures { IfOk result (λ id. HasId key.now (members_view members.now) id) }
{
    id_of(alloc, wanted(members, key))
}

/// The text under a key, where there is one.
pub fn optional_text(
    alloc: Global,
    members: &[Member],
    key: &str,
) -> Result<Option<Text>, OutOfMemory>
    requires { MayHave IsStringValue key.now (members_view members.now) }
    ensures { IfOk result (λ t. HasOptionalString key.now (members_view members.now) t) }
{
    match value_at(members, key) {
        Some(value) => Ok(Some(text_of(alloc, value)?)),
        None => Ok(None),
    }
}

/// The name under a key, where there is one.
pub fn optional_name(
    alloc: Global,
    members: &[Member],
    key: &str,
) -> Result<Option<Name>, OutOfMemory>
    requires { MayHave CanBeName key.now (members_view members.now) }
    ensures { IfOk result (λ name. HasOptionalString key.now (members_view members.now) name) }
{
    match value_at(members, key) {
        Some(value) => Ok(Some(name_of(alloc, value)?)),
        None => Ok(None),
    }
}

/// The identifier under a key, where there is one.
pub fn optional_id(
    alloc: Global,
    members: &[Member],
    key: &str,
) -> Result<Option<Dtmi>, OutOfMemory>
    requires { MayHave CanBeId key.now (members_view members.now) }
    ensures { IfOk result (λ id. HasOptionalId key.now (members_view members.now) id) }
{
    match value_at(members, key) {
        Some(value) => Ok(Some(id_of(alloc, value)?)),
        None => Ok(None),
    }
}
