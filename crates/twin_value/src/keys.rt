//! The roles of the members of an object, by their keys.

ghost use Rattle.std.specs.Prelude.{◌≡◌, ℕ, List, Some, map, IfOk};
ghost use Rattle.dtdl_terms.specs.TermViews.{schema_term};
ghost use Rattle.twin_value.specs.Roles.{body_member_role, value_member_role};
ghost use Rattle.std.specs.Option.{option_map};
ghost use Rattle.twin_value.specs.Machinery.Views.{role_view, keys_role, payload_role};

use crate::contents::{link_role, metadata_role, part_role, twin_role};
use crate::index::{Index, Keyed};
use crate::library::Library;
use crate::role::{Role, value_of};
use dt_base::OutOfMemory;
use dt_base::names::Dtmi;
use dtdl_terms::{Content, Payload, ResolvedContent, Schema};
use std::alloc::Global;

impl Keyed for Payload {
    ghost use Rattle.std.specs.Prelude.{Some};

    ghost key_of = { λ p. Some p.name };

    fn key(&self) -> Option<&str> {
        Some(self.name.as_str())
    }
}

impl Keyed for ResolvedContent {
    ghost use Rattle.std.specs.Prelude.{Some};

    ghost key_of = { λ c. Some c.content.name };

    fn key(&self) -> Option<&str> {
        Some(self.content.name.as_str())
    }
}

impl Keyed for Content {
    ghost use Rattle.std.specs.Prelude.{Some};

    ghost key_of = { λ c. Some c.name };

    fn key(&self) -> Option<&str> {
        Some(self.name.as_str())
    }
}

/// How members are judged by their keys.
#[derive(Drop)]
pub enum Keys<'r, 'a> {
    /// All in one role.
    Same(Role<'r, 'a>),
    /// As the fields that they name.
    Fields {
        named: &'r Index<'a, Schema>,
        fields: Index<'r, Payload>,
    },
    /// As those of a twin's `$metadata`.
    Metadata,
    /// As those of a twin with these contents.
    Twin {
        library: &'r Library<'a>,
        contents: Index<'r, ResolvedContent>,
    },
    /// As those of a component with these contents.
    Part {
        library: &'r Library<'a>,
        contents: Index<'r, ResolvedContent>,
    },
    /// As those of a relationship with these properties.
    Link {
        library: &'r Library<'a>,
        from: Option<&'r Dtmi>,
        properties: Index<'r, Content>,
    },
}

impl<'r, 'a> Keys<'r, 'a> {
    /// How the members of an object in a role are judged.
    pub fn of(alloc: Global, role: Role<'r, 'a>) -> Result<Keys<'r, 'a>, OutOfMemory>
        ensures { IfOk result (λ keys. (key : List ℕ) → keys_role keys key ≡ body_member_role (role_view role.entry) key) }
    {
        match role {
            Role::Value {
                named,
                schema: Some(schema),
            } => keys_of_schema(alloc, named, schema),
            Role::Value {
                named: _,
                schema: None,
            } => Ok(Keys::Same(Role::Anything)),
            Role::TwinMetadata => Ok(Keys::Metadata),
            Role::Twin { library, contents } => Ok(Keys::Twin {
                library,
                contents: Index::of(alloc, contents)?,
            }),
            Role::Part { library, contents } => Ok(Keys::Part {
                library,
                contents: Index::of(alloc, contents)?,
            }),
            Role::Link {
                library,
                from,
                properties,
            } => Ok(Keys::Link {
                library,
                from,
                properties: Index::of(alloc, properties)?,
            }),
            Role::Anything | Role::Undeclared | Role::Text | Role::Object => {
                Ok(Keys::Same(Role::Anything))
            }
            Role::ModelId | Role::TargetId | Role::LinkName => Ok(Keys::Same(Role::Anything)),
        }
    }

    /// The role of the member with this key.
    pub fn role(&self, key: &str) -> Role<'r, 'a>
        ensures { role_view result ≡ keys_role self.now key.now }
    {
        match self {
            Keys::Same(role) => return *role,
            Keys::Fields { named, fields } => return field_role(named, fields.get(key)),
            Keys::Metadata => return metadata_role(key),
            Keys::Twin { library, contents } => return twin_role(library, contents, key),
            Keys::Part { library, contents } => return part_role(library, contents, key),
            Keys::Link {
                library,
                from,
                properties,
            } => return link_role(library, from, properties, key),
        }
    }
}

/// How the members of a value of a schema are judged.
#[tactic(auto, using(crate::proofs::Schemas::terms))]
fn keys_of_schema<'r, 'a>(
    alloc: Global,
    named: &'r Index<'a, Schema>,
    schema: &'r Schema,
) -> Result<Keys<'r, 'a>, OutOfMemory>
    ensures { IfOk result (λ keys. (key : List ℕ) → keys_role keys key ≡ value_member_role (map schema_term named.now) (Some (schema_term schema.now)) key) }
{
    match schema {
        Schema::Map { value, .. } => Ok(Keys::Same(value_of(named, &value.get().schema))),
        Schema::Object {
            common: _common,
            fields,
        } => {
            let fields = Index::of(alloc, fields.as_slice())?;
            Ok(Keys::Fields { named, fields })
        }
        Schema::Primitive(_) => Ok(Keys::Same(Role::Anything)),
        Schema::Named(_) => Ok(Keys::Same(Role::Anything)),
        Schema::Array { .. } => Ok(Keys::Same(Role::Anything)),
        Schema::Enumeration { .. } => Ok(Keys::Same(Role::Anything)),
    }
}

/// The role of the field that there may be.
fn field_role<'r, 'a>(named: &'r Index<'a, Schema>, field: Option<&'r Payload>) -> Role<'r, 'a>
    ensures { role_view result ≡ payload_role named.now (option_map (λ f. f.now) field.entry) }
{
    match field {
        Some(field) => value_of(named, &field.schema),
        None => Role::Undeclared,
    }
}
