//! The roles of the members of twins, components and relationships, by their keys.

ghost use Rattle.std.specs.Prelude.{◌≡◌, codes};
ghost use Rattle.std.specs.Option.{option_map};
ghost use Rattle.dtdl_terms.specs.TermViews.{kind_term, contents_term};
ghost use Rattle.twin_value.specs.Roles.{body_member_role, twin_metadata, declared_role, twin_declared_role, twin_content_role, part_content_role, link_property_role, twin_role, body_part_role, link_role};
ghost use Rattle.twin_value.specs.Named.{property_called};
ghost use Rattle.twin_value.specs.Machinery.Dollar.{begins_with_dollar};
ghost use Rattle.twin_value.specs.Machinery.Views.{role_view};

use crate::index::Index;
use crate::library::Library;
use crate::role::{Role, value_of};
use dt_base::names::Dtmi;
use dtdl_terms::{Content, ContentKind, ResolvedContent};

/// The role of a member that an interface declares by a content of this kind, where only properties have one.
#[tactic(auto, using(crate::proofs::Contained::kinds))]
fn declared_role<'r, 'a>(
    library: &'r Library<'a>,
    from: &Dtmi,
    kind: &'r ContentKind,
) -> Role<'r, 'a>
    ensures { role_view result ≡ declared_role library.now from.now (kind_term kind.now) }
{
    match kind {
        ContentKind::Property { schema, .. } => value_of(library.schemas_from(from), schema),
        ContentKind::Telemetry { .. } => Role::Undeclared,
        ContentKind::Command { .. } => Role::Undeclared,
        ContentKind::Relationship { .. } => Role::Undeclared,
        ContentKind::Component { .. } => Role::Undeclared,
    }
}

/// The same, where components have one too.
#[tactic(auto, using(crate::proofs::Contained::kinds))]
fn twin_declared_role<'r, 'a>(
    library: &'r Library<'a>,
    from: &Dtmi,
    kind: &'r ContentKind,
) -> Role<'r, 'a>
    ensures { role_view result ≡ twin_declared_role library.now from.now (kind_term kind.now) }
{
    match kind {
        ContentKind::Component { of } => Role::Part {
            library,
            contents: library.contents_of(of),
        },
        ContentKind::Property { schema, .. } => value_of(library.schemas_from(from), schema),
        ContentKind::Telemetry { .. } => Role::Undeclared,
        ContentKind::Command { .. } => Role::Undeclared,
        ContentKind::Relationship { .. } => Role::Undeclared,
    }
}

/// The role of a member of a twin, by the content of its name.
fn twin_content_role<'r, 'a>(
    library: &'r Library<'a>,
    content: Option<&'r ResolvedContent>,
) -> Role<'r, 'a>
    ensures { role_view result ≡ twin_content_role library.now (option_map (λ c. c.now) content.entry) }
{
    match content {
        Some(content) => twin_declared_role(library, &content.from, &content.content.kind),
        None => Role::Undeclared,
    }
}

/// The role of a member of a component, by the content of its name.
fn part_content_role<'r, 'a>(
    library: &'r Library<'a>,
    content: Option<&'r ResolvedContent>,
) -> Role<'r, 'a>
    ensures { role_view result ≡ part_content_role library.now (option_map (λ c. c.now) content.entry) }
{
    match content {
        Some(content) => declared_role(library, &content.from, &content.content.kind),
        None => Role::Undeclared,
    }
}

/// The role of a member of a relationship, by its property of this name.
fn property_role<'r, 'a>(
    library: &'r Library<'a>,
    from: Option<&'r Dtmi>,
    properties: &Index<'r, Content>,
    key: &str,
) -> Role<'r, 'a>
    ensures { role_view result ≡ link_property_role library.now (option_map (λ f. f.now) from.entry) (property_called key.now (contents_term properties.now)) }
{
    let Some(from) = from else {
        return Role::Undeclared;
    };
    match properties.get(key) {
        Some(property) => declared_role(library, from, &property.kind),
        None => Role::Undeclared,
    }
}

/// The role of a member of a twin's `$metadata`.
pub fn metadata_role<'r, 'a>(key: &str) -> Role<'r, 'a>
    ensures { role_view result ≡ body_member_role twin_metadata key.now }
{
    if key == "$model" {
        Role::ModelId
    } else {
        Role::Anything
    }
}

/// Whether a key begins with `$`, as the words do that no content is called by.
fn begins_with_dollar(key: &str) -> bool
    ensures { result ≡ begins_with_dollar key.now }
{
    match key.as_bytes().first() {
        Some(byte) => *byte == b'$',
        None => false,
    }
}

/// The role of a member of a twin.
#[tactic(auto, using(crate::proofs::Dollar::unmarked))]
pub fn twin_role<'r, 'a>(
    library: &'r Library<'a>,
    contents: &Index<'r, ResolvedContent>,
    key: &str,
) -> Role<'r, 'a>
    ensures { role_view result ≡ twin_role library.now contents.now key.now }
{
    if begins_with_dollar(key) {
        if key == "$metadata" {
            return Role::TwinMetadata;
        }
        if key == "$dtId" {
            return Role::Text;
        }
        if key == "$etag" {
            return Role::Anything;
        }
    }
    twin_content_role(library, contents.get(key))
}

/// The role of a member of a component.
#[tactic(auto, using(crate::proofs::Dollar::unmarked))]
pub fn part_role<'r, 'a>(
    library: &'r Library<'a>,
    contents: &Index<'r, ResolvedContent>,
    key: &str,
) -> Role<'r, 'a>
    ensures { role_view result ≡ body_part_role library.now contents.now key.now }
{
    if begins_with_dollar(key) && key == "$metadata" {
        return Role::Object;
    }
    part_content_role(library, contents.get(key))
}

/// The role of a member of a relationship.
#[tactic(auto, using(crate::proofs::Dollar::unmarked))]
pub fn link_role<'r, 'a>(
    library: &'r Library<'a>,
    from: &Option<&'r Dtmi>,
    properties: &Index<'r, Content>,
    key: &str,
) -> Role<'r, 'a>
    ensures { role_view result ≡ link_role library.now (option_map (λ f. f.now) from.now) (contents_term properties.now) key.now }
{
    if begins_with_dollar(key) {
        if key == "$targetId" {
            return Role::TargetId;
        }
        if key == "$relationshipName" {
            return Role::LinkName;
        }
        if key == "$relationshipId" {
            return Role::Text;
        }
        if key == "$sourceId" {
            return Role::Text;
        }
        if key == "$etag" {
            return Role::Anything;
        }
        if key == "$metadata" {
            return Role::Anything;
        }
    }
    property_role(library, *from, properties, key)
}
