//! Interfaces, as trees and as texts.

ghost use Rattle.std.specs.Prelude.{◌≡◌, [], ◌∷◌, map, Some, codes, IfOk, OnOk};
ghost use Rattle.std.specs.Option.{option_map};
ghost use Rattle.json_tree.specs.Values.{text};
ghost use Rattle.json_tree.specs.View.{view, member_view};
ghost use Rattle.canon_text.specs.Canonical.{interface_value, interface_text, parent_pair, schema_pair, id_value};
ghost use Rattle.dtdl_terms.specs.TermViews.{schema_term};
ghost use Rattle.canon_text.specs.Objects.{present, list_in_order, unless_empty};
ghost use Rattle.canon_text.specs.Machinery.Pairs.{IsPut};

use crate::common::id;
use crate::contents::put_contents;
use crate::parts::{object, push_named, put, put_localized, put_optional_text, put_text};
use crate::schemas::named_schemas;
use crate::sorting::optional_list;
use dt_base::names::Dtmi;
use dt_base::{List, OutOfMemory};
use dtdl_terms::{Interface, Schema};
use json_tree::{Member, Tree, print};
use std::alloc::Global;

/// Identifiers by themselves.
fn named_parents(alloc: Global, items: &[Dtmi]) -> Result<Vec<Member>, OutOfMemory>
    ensures { IfOk result (λ members. map member_view members.items ≡ map parent_pair items.now) }
{
    let mut members = Vec::with_capacity(alloc, items.len())?;
    for item in items {
        let value = id(alloc, item)?;
        push_named(alloc, &mut members, item.as_str(), value)?;
    }
    Ok(members)
}

/// Adds a member with identifiers, where there are such.
fn put_parents(
    alloc: Global,
    members: &mut Vec<Member>,
    key: &str,
    items: &[Dtmi],
) -> Result<(), OutOfMemory>
    ensures { OnOk result (IsPut (map member_view members.old.items) (map member_view members.new.items) key.now (unless_empty list_in_order (map parent_pair items.now))) }
{
    let values = named_parents(alloc, items)?;
    let list = optional_list(alloc, values)?;
    put(alloc, members, key, list)?;
    Ok(())
}

/// Adds a member with named schemas, where there are such.
fn put_schemas(
    alloc: Global,
    members: &mut Vec<Member>,
    key: &str,
    items: &[Schema],
) -> Result<(), OutOfMemory>
    ensures { OnOk result (IsPut (map member_view members.old.items) (map member_view members.new.items) key.now (unless_empty list_in_order (map (λ s. schema_pair (schema_term s)) items.now))) }
{
    let values = named_schemas(alloc, items)?;
    let list = optional_list(alloc, values)?;
    put(alloc, members, key, list)?;
    Ok(())
}

/// The members of an interface up to its comment.
fn opening(alloc: Global, interface: &Interface) -> Result<Vec<Member>, OutOfMemory>
    ensures { IfOk result (λ members. map member_view members.items ≡ present ((codes "@context", Some (text (codes "dtmi:dtdl:context;2")))
        ∷ (codes "@id", Some (id_value interface.now.id)) ∷ (codes "@type", Some (text (codes "Interface"))) ∷ (codes "comment", option_map text interface.now.comment) ∷ [])) }
{
    let mut members = Vec::with_capacity(alloc, 9)?;
    put_text(alloc, &mut members, "@context", "dtmi:dtdl:context;2")?;
    put_text(alloc, &mut members, "@id", interface.id.as_str())?;
    put_text(alloc, &mut members, "@type", "Interface")?;
    put_optional_text(alloc, &mut members, "comment", &interface.comment)?;
    Ok(members)
}

/// The canonical tree of an interface, of which `canon_interface` gives the text. The members of each object in it stand
/// in the order of their keys. That this form is canonical is this project's own. Fails only for want of memory. The
/// call goes down as deep as schemas lie in one another.
pub fn canon_tree(alloc: Global, interface: &Interface) -> Result<Tree, OutOfMemory>
    ensures { IfOk result (λ tree. view tree ≡ interface_value interface.now) }
{
    let mut members = opening(alloc, interface)?;
    put_contents(
        alloc,
        &mut members,
        "contents",
        interface.contents.as_slice(),
    )?;
    put_localized(alloc, &mut members, "description", &interface.description)?;
    put_localized(alloc, &mut members, "displayName", &interface.display_name)?;
    put_parents(alloc, &mut members, "extends", interface.parents.as_slice())?;
    put_schemas(alloc, &mut members, "schemas", interface.schemas.as_slice())?;
    Ok(object(members))
}

/// The canonical text of an interface: that of its canonical tree, without white space. Fails only for want of memory.
pub fn canon_interface(alloc: Global, interface: &Interface) -> Result<List<u8>, OutOfMemory>
    ensures { IfOk result (λ bytes. bytes ≡ interface_text interface.now) }
{
    let tree = canon_tree(alloc, interface)?;
    let text = print(alloc, &tree)?.into_string(alloc)?;
    Ok(List::from_vec(text.into_bytes()))
}
