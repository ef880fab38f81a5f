//! Contents of interfaces, and properties of relationships.

ghost use Rattle.std.specs.Prelude.{◌∷◌, [], Some, IfOk, OnOk, codes};
ghost use Rattle.std.specs.List.{AllZip};
ghost use Rattle.json_tree.specs.View.{view, members_view, elements_view};
ghost use Rattle.json_tree.specs.Members.{list_of, value_at};
ghost use Rattle.local_rules.specs.Roles.{type_of};
ghost use Rattle.local_rules.specs.declared.role.Element.TheVariants as element;
ghost use Rattle.local_rules.specs.declared.role.Position.TheVariants as position;
ghost use Rattle.dtdl_terms.specs.TermViews.{contents_term};
ghost use Rattle.local_rules.specs.Declarations.{AreProperties, HasContents, IsContentEntry};
ghost use Rattle.model_read.specs.Machinery.Gains.{Gains, GainsKind};
ghost use Rattle.model_read.specs.Machinery.Shapes.{EachIs, IsListOf, IsValidContent, IsValidProperty, KindShape, MayHave, RelationshipShape};

use crate::common::common_of;
use crate::kinds::{
    is_writable, max_at, push_command, push_component, push_property, push_telemetry,
};
use crate::parts::{entries_at, members_of};
use crate::texts::{name_at, optional_id};
use dt_base::names::Name;
use dt_base::{List, OutOfMemory};
use dtdl_terms::{Common, Content, ContentKind};
use json_tree::{Member, Tree};
use local_rules::{Element, Position, type_of};
use std::alloc::Global;

/// Adds the property of a relationship that a value declares.
fn push_property_of(
    alloc: Global,
    properties: &mut Vec<Content>,
    tree: &Tree,
) -> Result<(), OutOfMemory>
    requires { IsValidProperty (view tree.now) }
    ensures { OnOk result (Gains (λ c. AreProperties (contents_term (c ∷ [])) (elements_view (tree.now ∷ []))) properties.old.items properties.new.items) }
{
    let members = members_of(tree);
    let name = name_at(alloc, members, "name")?;
    let Ok(common) = common_of(alloc, members) else {
        drop(name);
        return Err(OutOfMemory);
    };
    push_property(alloc, properties, name, common, Position::Property, members)
}

/// The properties of a relationship.
fn properties_of(alloc: Global, trees: &[Tree]) -> Result<List<Content>, OutOfMemory>
    requires { EachIs IsValidProperty (elements_view trees.now) }
    ensures { IfOk result (λ cs. AreProperties (contents_term cs) (elements_view trees.now)) }
{
    let mut properties = Vec::with_capacity(alloc, trees.len())?;
    for tree in trees {
        push_property_of(alloc, &mut properties, tree)?;
    }
    Ok(List::from_vec(properties))
}

/// Adds the relationship that members declare to contents; its name and what every element has were read before.
fn push_relationship(
    alloc: Global,
    contents: &mut Vec<Content>,
    name: Name,
    common: Common,
    members: &[Member],
) -> Result<(), OutOfMemory>
    requires { RelationshipShape (members_view members.now) }
    ensures { OnOk result (GainsKind position.Content (Some element.Relationship) (members_view members.now) name common contents.old.items contents.new.items) }
{
    let Ok(target) = optional_id(alloc, members, "target") else {
        drop((name, common));
        return Err(OutOfMemory);
    };
    let entries = entries_at(members, "properties");
    let Ok(properties) = properties_of(alloc, entries) else {
        drop((name, common, target));
        return Err(OutOfMemory);
    };
    let max = max_at(members);
    let writable = is_writable(members);
    let kind = ContentKind::Relationship {
        target,
        properties,
        max,
        writable,
    };
    contents.push(Content { name, common, kind })?;
    Ok(())
}

/// Adds a content whose members say what it is; its name and what every element has were read before.
///
/// A content is made where it is added: it is large, and each function that hands one out copies it.
fn push_kind(
    alloc: Global,
    contents: &mut Vec<Content>,
    name: Name,
    common: Common,
    members: &[Member],
) -> Result<(), OutOfMemory>
    requires { KindShape (type_of position.Content (members_view members.now)) (members_view members.now) }
    ensures { OnOk result (GainsKind position.Content (type_of position.Content (members_view members.now)) (members_view members.now) name common contents.old.items contents.new.items) }
{
    match type_of(Position::Content, members) {
        Some(Element::Telemetry) => push_telemetry(alloc, contents, name, common, members),
        Some(Element::Property) => {
            push_property(alloc, contents, name, common, Position::Content, members)
        }
        Some(Element::Command) => push_command(alloc, contents, name, common, members),
        Some(Element::Relationship) => push_relationship(alloc, contents, name, common, members),
        Some(Element::Component) => push_component(alloc, contents, name, common, members),
        _ => unreachable!(),
    }
}

/// Adds the content that a value declares.
fn push_content(alloc: Global, contents: &mut Vec<Content>, tree: &Tree) -> Result<(), OutOfMemory>
    requires { IsValidContent (view tree.now) }
    ensures { OnOk result (Gains (IsContentEntry (view tree.now)) contents.old.items contents.new.items) }
{
    let members = members_of(tree);
    let name = name_at(alloc, members, "name")?;
    let Ok(common) = common_of(alloc, members) else {
        drop(name);
        return Err(OutOfMemory);
    };
    push_kind(alloc, contents, name, common, members)
}

/// The contents that the entries of a list declare.
fn contents_of(alloc: Global, trees: &[Tree]) -> Result<List<Content>, OutOfMemory>
    requires { EachIs IsValidContent (elements_view trees.now) }
    ensures { IfOk result (λ cs. AllZip IsContentEntry (list_of (elements_view trees.now)) cs) }
{
    let mut contents = Vec::with_capacity(alloc, trees.len())?;
    for tree in trees {
        push_content(alloc, &mut contents, tree)?;
    }
    Ok(List::from_vec(contents))
}

/// The contents of an interface.
pub fn contents_at(alloc: Global, members: &[Member]) -> Result<List<Content>, OutOfMemory>
    requires { MayHave (IsListOf IsValidContent) (codes "contents") (members_view members.now) }
    ensures { IfOk result (λ cs. HasContents (value_at (codes "contents") (members_view members.now)) cs) }
{
    let entries = entries_at(members, "contents");
    contents_of(alloc, entries)
}
