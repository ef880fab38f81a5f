//! The rules that the schemas which an interface names decide.

ghost use Rattle.std.specs.Prelude.{◌≡◌, ◌↔◌, IfOk, IsTrue};
ghost use Rattle.json_tree.specs.View.{view, members_view};
ghost use Rattle.local_rules.specs.Breaches.{BreaksBySchemas, IsFirstOf};
ghost use Rattle.local_rules.specs.Levels.{IsOuter, UnknownSchema};
ghost use Rattle.local_rules.specs.Identifiers.{OfText};
ghost use Rattle.local_faults.specs.Machinery.Named.{IsUnknownName};
ghost use Rattle.local_faults.specs.Machinery.Measured.{AreMeasured};
ghost use Rattle.local_rules.specs.declared.role.Role.TheVariants as role_of;
ghost use Rattle.local_rules.specs.declared.role.SchemaUse.TheVariants as schema_use;

use crate::index::Names;
use crate::look::is_primitive;
use crate::measures::{Measure, measure_of};
use crate::rounds::measures_of;
use dt_base::OutOfMemory;
use json_tree::{Member, Tree, text_in};
use local_rules::{LocalRule, Role, SchemaUse};
use std::alloc::Global;
use std::marker::Model;

/// The least level that is too deep (DTDL v2, "Schemas").
const DEEP_LEVEL: u8 = 6;

/// The schemas that one interface names, each with its level and whether it reaches an array (DTDL v2, "Schemas").
/// A contract sees the members of the interface.
#[derive(Drop)]
pub struct NamedSchemas<'a> {
    names: Names<'a>,
    table: Vec<Measure>,
}

impl<'a> Model for NamedSchemas<'a> {
    ghost use Rattle.std.specs.Prelude.{List};
    ghost use Rattle.std.specs.Coded.{coded_list};
    ghost use Rattle.json_tree.specs.contracts.tree.Member as m;
    ghost use Rattle.json_tree.specs.declared.tree.Member.{Member};

    ghost Value = { List Member };

    ghost coded = { coded_list m.the_row.coded };

    ghost use Rattle.json_tree.specs.View.{members_view};
    ghost use Rattle.local_faults.specs.Machinery.Measured.{AreMeasured};

    ghost view = { λ s. s.names };

    ghost invariant = { λ s. AreMeasured (members_view s.names) 6 s.table.items };
}

/// Whether a schema with this role lies in no other.
fn is_outer(role: Role) -> bool
    ensures { IsTrue result ↔ IsOuter role }
{
    match role {
        Role::Schema {
            part: SchemaUse::Outer,
        } => true,
        Role::Schema {
            part: SchemaUse::Property,
        } => true,
        Role::NamedSchema => true,
        _ => false,
    }
}

/// Whether a schema with this role is that of a property.
fn is_of_property(role: Role) -> bool
    ensures { IsTrue result ↔ (role ≡ role_of.Schema schema_use.Property) }
{
    match role {
        Role::Schema {
            part: SchemaUse::Property,
        } => true,
        _ => false,
    }
}

impl<'a> NamedSchemas<'a> {
    /// The schemas that an interface with these members names.
    pub fn of(alloc: Global, members: &'a [Member]) -> Result<NamedSchemas<'a>, OutOfMemory>
        ensures { IfOk result (λ named. named ≡ members.now) }
    {
        let names = Names::of(alloc, members)?;
        let table = measures_of(alloc, &names)?;
        Ok(NamedSchemas { names, table })
    }

    /// The first of the rules on named schemas that a value in a role breaks.
    pub fn rule(&self, role: Role, tree: &Tree) -> Option<LocalRule>
        ensures { IsFirstOf (λ broken. BreaksBySchemas (members_view self.now) broken role (view tree.now)) result }
    {
        first_broken(&self.names, self.table.as_slice(), role, tree)
    }
}

/// The first of these rules that is broken, by the measures of the named schemas.
fn first_broken(names: &Names, table: &[Measure], role: Role, tree: &Tree) -> Option<LocalRule>
    requires { AreMeasured (members_view names.now) 6 table.now }
    ensures { IsFirstOf (λ broken. BreaksBySchemas (members_view names.now) broken role (view tree.now)) result }
{
    if is_unknown(names, role, tree) {
        return Some(LocalRule::UnknownSchema);
    }
    if !is_outer(role) {
        return None;
    }
    let measure = measure_of(names, table, tree);
    if measure.level >= DEEP_LEVEL {
        return Some(LocalRule::TooDeep);
    }
    if !measure.reaches {
        return None;
    }
    if is_of_property(role) {
        return Some(LocalRule::ArrayInProperty);
    }
    None
}

/// Whether a text in the role of a schema names none.
fn is_unknown(names: &Names, role: Role, tree: &Tree) -> bool
    ensures { IsTrue result ↔ UnknownSchema (members_view names.now) role (view tree.now) }
{
    match role {
        Role::Schema { .. } => names_nothing(names, tree),
        _ => false,
    }
}

/// Whether a value is a text that names no schema.
fn names_nothing(names: &Names, tree: &Tree) -> bool
    ensures { IsTrue result ↔ OfText (IsUnknownName (members_view names.now)) (view tree.now) }
{
    match text_in(tree) {
        Some(name) => is_unknown_name(names, name),
        None => false,
    }
}

/// Whether a text names no schema.
fn is_unknown_name(names: &Names, name: &str) -> bool
    ensures { IsTrue result ↔ IsUnknownName (members_view names.now) name.now }
{
    if is_primitive(name) {
        return false;
    }
    match names.position_of_id(name) {
        Some(_) => false,
        None => true,
    }
}
