//! What a value in a body is to be.

ghost use Rattle.std.specs.Prelude.{◌≡◌, Some, map};
ghost use Rattle.std.specs.Option.{option_map};
ghost use Rattle.dtdl_terms.specs.TermViews.{schema_term};
ghost use Rattle.twin_value.specs.Fits.{standing};
ghost use Rattle.twin_value.specs.Roles.{element_role, value_element_role, value_of};
ghost use Rattle.twin_value.specs.Machinery.Views.{role_view};

use crate::index::Index;
use crate::library::Library;
use dt_base::names::Dtmi;
use dtdl_terms::{Content, ResolvedContent, Schema};

/// What a value in a body is to be, by its place.
#[derive(Clone, Copy)]
pub enum Role<'r, 'a> {
    /// Anything: it is judged no further.
    Anything,
    /// What nothing declares.
    Undeclared,
    /// A text.
    Text,
    /// An object.
    Object,
    /// The `$model` of a twin's `$metadata`.
    ModelId,
    /// The `$targetId` of a relationship.
    TargetId,
    /// The `$relationshipName` of a relationship.
    LinkName,
    /// A twin's `$metadata`.
    TwinMetadata,
    /// The body of a twin with these contents.
    Twin {
        library: &'r Library<'a>,
        contents: &'r [ResolvedContent],
    },
    /// A component with these contents.
    Part {
        library: &'r Library<'a>,
        contents: &'r [ResolvedContent],
    },
    /// The body of a relationship that an interface declares with these properties.
    Link {
        library: &'r Library<'a>,
        from: Option<&'r Dtmi>,
        properties: &'r [Content],
    },
    /// A value of the schema, if there is one.
    Value {
        named: &'r Index<'a, Schema>,
        schema: Option<&'r Schema>,
    },
}

/// The schema that stands for one.
#[tactic(auto, using(crate::proofs::Schemas::terms))]
fn standing<'r, 'a>(named: &'r Index<'a, Schema>, schema: &'r Schema) -> Option<&'r Schema>
    ensures { option_map (λ s. schema_term s.now) result ≡ standing (map schema_term named.now) (schema_term schema.now) }
{
    match schema {
        Schema::Named(id) => named.get(id.as_str()),
        Schema::Primitive(_) => Some(schema),
        Schema::Array { .. } => Some(schema),
        Schema::Enumeration { .. } => Some(schema),
        Schema::Map { .. } => Some(schema),
        Schema::Object { .. } => Some(schema),
    }
}

/// The role of a value of a schema, whose references name schemas of the index.
pub fn value_of<'r, 'a>(named: &'r Index<'a, Schema>, schema: &'r Schema) -> Role<'r, 'a>
    ensures { role_view result ≡ value_of (map schema_term named.now) (schema_term schema.now) }
{
    Role::Value {
        named,
        schema: standing(named, schema),
    }
}

/// The role of the elements of a value of a schema.
#[tactic(auto, using(crate::proofs::Schemas::terms))]
fn element_of<'r, 'a>(named: &'r Index<'a, Schema>, schema: &'r Schema) -> Role<'r, 'a>
    ensures { role_view result ≡ value_element_role (map schema_term named.now) (Some (schema_term schema.now)) }
{
    match schema {
        Schema::Array { element, .. } => value_of(named, element.get()),
        Schema::Primitive(_) => Role::Anything,
        Schema::Named(_) => Role::Anything,
        Schema::Enumeration { .. } => Role::Anything,
        Schema::Map { .. } => Role::Anything,
        Schema::Object { .. } => Role::Anything,
    }
}

impl<'r, 'a> Role<'r, 'a> {
    /// The role of the elements of an array in this role.
    pub fn element(self) -> Role<'r, 'a>
        ensures { role_view result ≡ element_role (role_view self.entry) }
    {
        match self {
            Role::Value {
                named,
                schema: Some(schema),
            } => element_of(named, schema),
            Role::Value {
                named: _,
                schema: None,
            } => Role::Anything,
            Role::Anything | Role::Undeclared | Role::Text | Role::Object => Role::Anything,
            Role::ModelId | Role::TargetId | Role::LinkName => Role::Anything,
            Role::TwinMetadata => Role::Anything,
            Role::Twin { .. } => Role::Anything,
            Role::Part { .. } => Role::Anything,
            Role::Link { .. } => Role::Anything,
        }
    }
}
