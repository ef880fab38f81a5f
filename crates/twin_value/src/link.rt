//! Relationships, and the bodies that they are read from.

ghost use Rattle.std.specs.Prelude.{◌≡◌, ◌↔◌, ◌∷◌, [], IsTrue, Some, IfOk, IsSome, MatchResult, codes};
ghost use Rattle.std.specs.Option.{option_map};
ghost use Rattle.json_tree.specs.Values.{object};
ghost use Rattle.json_tree.specs.View.{view, members_view};
ghost use Rattle.json_tree.specs.Sorting.{IsSortedOf};
ghost use Rattle.json_tree.specs.Members.{members_in};
ghost use Rattle.dtdl_terms.specs.TermViews.{contents_term};
ghost use Rattle.twin_value.specs.Named.{content_called};
ghost use Rattle.twin_value.specs.Breaches.{IsBodyBreach, IsLinkBreach, body_role, link_source, HasNoBreach, EndsBy, NamesNone, link_called, as_link, named_link, link_properties, key_position, text_under, link_role_of};
ghost use Rattle.twin_value.specs.Machinery.Views.{role_view};
ghost use Rattle.twin_value.specs.Roles.{body_member_role};
ghost use Rattle.twin_value.specs.Twins.{IsLinkOf, picked, same_value, is_value_role};

use crate::code::BodyCode;
use crate::end::{BodyEnd, judge_body, text_under};
use crate::gather::values_of;
use crate::keys::Keys;
use crate::library::Library;
use crate::role::Role;
use dt_base::names::{Dtmi, is_name};
use dt_base::{List, OutOfMemory, Text};
use dtdl_terms::{Content, ContentKind, Resolved, ResolvedContent};
use json_tree::{Member, Place, Tree, members_in, text_at};
use rel_graph::Edge;
use std::alloc::Global;

/// A relationship: an edge that carries the values of its properties, an object whose members are sorted at every depth.
pub type Relationship = Edge<Tree>;

/// The content of this name.
fn find_content<'a>(contents: &'a [ResolvedContent], name: &str) -> Option<&'a ResolvedContent>
    ensures { option_map (λ c. c.now) result ≡ content_called name.now contents.now }
{
    for content in contents {
        if content.content.name.as_str() == name {
            return Some(content);
        }
    }
    None
}

/// The content, where it is a relationship.
#[tactic(auto, using(crate::proofs::Contained::kinds))]
fn as_link(content: Option<&ResolvedContent>) -> Option<&ResolvedContent>
    ensures { option_map (λ c. c.now) result ≡ as_link (option_map (λ c. c.now) content.entry) }
{
    let found = content?;
    match &found.content.kind {
        ContentKind::Relationship { .. } => content,
        ContentKind::Telemetry { .. } => None,
        ContentKind::Property { .. } => None,
        ContentKind::Command { .. } => None,
        ContentKind::Component { .. } => None,
    }
}

/// The relationship that a body names.
fn link_of<'a>(contents: &'a [ResolvedContent], tree: &Tree) -> Option<&'a ResolvedContent>
    ensures { option_map (λ c. c.now) result ≡ named_link contents.now (view tree.now) }
{
    let name = text_at(members_in(tree), "$relationshipName")?;
    as_link(find_content(contents, name))
}

/// Whether a body names a relationship that the model does not declare.
fn names_none(resolved: &Resolved, tree: &Tree) -> bool
    ensures { IsTrue result ↔ NamesNone resolved.now (view tree.now) }
{
    let Some(name) = text_at(members_in(tree), "$relationshipName") else {
        return false;
    };
    if !is_name(name) {
        return false;
    }
    as_link(find_content(resolved.contents.as_slice(), name)).is_none()
}

/// The properties of a relationship that there may be.
#[tactic(auto, using(crate::proofs::Contained::kinds))]
fn properties_of(link: Option<&ResolvedContent>) -> &[Content]
    ensures { contents_term result.now ≡ link_properties (option_map (λ c. c.now) link.entry) }
{
    let Some(link) = link else {
        return &[];
    };
    match &link.content.kind {
        ContentKind::Relationship { properties, .. } => properties.as_slice(),
        ContentKind::Telemetry { .. } => &[],
        ContentKind::Property { .. } => &[],
        ContentKind::Command { .. } => &[],
        ContentKind::Component { .. } => &[],
    }
}

/// The interface that declares a relationship.
fn source_of(link: Option<&ResolvedContent>) -> Option<&Dtmi>
    ensures { option_map (λ f. f.now) result ≡ link_source (option_map (λ c. c.now) link.entry) }
{
    match link {
        Some(link) => Some(&link.from),
        None => None,
    }
}

/// The position of the first member with this key.
fn position_of(members: &[Member], key: &str) -> usize
    ensures { result ≡ key_position key.now (members_view members.now) }
{
    let mut at = 0;
    'members: while at < members.len() && members[at].key.as_str() != key {
        at += 1;
    }
    at
}

/// Where a body names a relationship.
fn name_place(alloc: Global, tree: &Tree) -> Result<Place, OutOfMemory>
    ensures { IfOk result (λ place. place.steps ≡ key_position (codes "$relationshipName") (members_in (view tree.now)) ∷ []) }
{
    let at = position_of(members_in(tree), "$relationshipName");
    let steps = vec![in alloc; at as u64]?;
    Ok(Place {
        steps: List::from_vec(steps),
    })
}

/// The values of the properties of a relationship, sorted.
fn link_values(alloc: Global, tree: &Tree, role: Role) -> Result<Tree, OutOfMemory>
    ensures { IfOk result (λ t. IsSortedOf (object (picked (λ key. is_value_role (body_member_role (role_view role.entry) key)) same_value (members_in (view tree.now)))) (view t)) }
{
    let keys = Keys::of(alloc, role)?;
    let values = values_of(alloc, members_in(tree), &keys);
    drop(keys);
    values
}

/// Two texts in memory of their own.
fn texts(alloc: Global, first: &str, second: &str) -> Result<(Text, Text), OutOfMemory>
    ensures { IfOk result (λ t. (t.0 ≡ first.now) × (t.1 ≡ second.now)) }
{
    let first = Text::from_str(alloc, first)?;
    let Ok(second) = Text::from_str(alloc, second) else {
        drop(first);
        return Err(OutOfMemory);
    };
    Ok((first, second))
}

/// A relationship with nothing yet of its properties.
pub(crate) fn bare_link(
    alloc: Global,
    source: &str,
    id: &str,
    name: &str,
    target: &str,
) -> Result<Edge<()>, OutOfMemory>
    ensures ends { IfOk result (λ e. (e.source ≡ source.now) × (e.target ≡ target.now)) }
    ensures names { IfOk result (λ e. (e.id ≡ id.now) × (e.name ≡ name.now)) }
{
    let (source, id) = texts(alloc, source, id)?;
    let Ok((name, target)) = texts(alloc, name, target) else {
        drop((source, id));
        return Err(OutOfMemory);
    };
    Ok(Edge {
        source,
        id,
        name,
        target,
        payload: (),
    })
}

/// The ends and names of a relationship, with these values.
pub(crate) fn with_values(bare: Edge<()>, payload: Tree) -> Relationship
    ensures ends { (result.source ≡ bare.source) × (result.target ≡ bare.target) }
    ensures names { (result.id ≡ bare.id) × (result.name ≡ bare.name) }
    ensures payload { result.payload ≡ payload }
{
    let Edge {
        source,
        id,
        name,
        target,
        payload: _none,
    } = bare;
    Edge {
        source,
        id,
        name,
        target,
        payload,
    }
}

/// The relationship of a source and an identifier for which a body without breach stands.
fn link_from(
    alloc: Global,
    source: &str,
    id: &str,
    tree: &Tree,
    role: Role,
) -> Result<Relationship, OutOfMemory>
    requires name { IsSome (text_under (codes "$relationshipName") (view tree.now)) }
    requires target { IsSome (text_under (codes "$targetId") (view tree.now)) }
    ensures { IfOk result (IsLinkOf (role_view role.entry) source.now id.now (view tree.now)) }
{
    let name = text_under(tree, "$relationshipName");
    let target = text_under(tree, "$targetId");
    let bare = bare_link(alloc, source, id, name, target)?;
    let Ok(payload) = link_values(alloc, tree, role) else {
        drop(bare);
        return Err(OutOfMemory);
    };
    Ok(with_values(bare, payload))
}

/// The same of a body that may have a breach, and that names this relationship.
fn link_by(
    alloc: Global,
    source: &str,
    id: &str,
    tree: &Tree,
    library: &Library,
    link: Option<&ResolvedContent>,
) -> Result<Relationship, BodyEnd>
    ensures { MatchResult result
        (λ r. HasNoBreach (IsBodyBreach (body_role library.now (option_map (λ c. c.now) link.entry)) (view tree.now))
        × IsLinkOf (body_role library.now (option_map (λ c. c.now) link.entry)) source.now id.now (view tree.now) r)
        (EndsBy (IsBodyBreach (body_role library.now (option_map (λ c. c.now) link.entry)) (view tree.now))) }
{
    let role = Role::Link {
        library,
        from: source_of(link),
        properties: properties_of(link),
    };
    judge_body(alloc, tree, role)?;
    let link = link_from(alloc, source, id, tree, role)?;
    Ok(link)
}

/// The relationship of a source and an identifier for which the body of a request stands (this project's own): `$targetId`
/// names a twin, `$relationshipName` a relationship of the source's resolved model, `$relationshipId` and `$sourceId` are
/// texts, `$etag` and `$metadata` may be anything, and every other member is a property that the relationship declares,
/// with a value that fits. Whether `$relationshipId` and `$sourceId` are those of the call is for the caller to say.
/// Fails by the first breach, in preorder and at one place by the number of its code, or for want of memory. Where the
/// model declares no relationship of the name, `UnknownRelationship` at the name is the only breach.
pub fn read_rel(
    alloc: Global,
    source: &str,
    id: &str,
    tree: &Tree,
    resolved: &Resolved,
) -> Result<Relationship, BodyEnd>
    ensures { MatchResult result
        (λ link. HasNoBreach (IsLinkBreach resolved.now (view tree.now)) × IsLinkOf (link_role_of resolved.now (view tree.now)) source.now id.now (view tree.now) link)
        (EndsBy (IsLinkBreach resolved.now (view tree.now))) }
{
    if names_none(resolved, tree) {
        return Err(BodyEnd::Fault {
            place: name_place(alloc, tree)?,
            code: BodyCode::UnknownRelationship,
        });
    }
    let library = Library::of(alloc, resolved)?;
    let link = link_of(resolved.contents.as_slice(), tree);
    let read = link_by(alloc, source, id, tree, &library, link);
    drop(library);
    read
}
