//! How deep a schema lies, and whether it reaches an array, from what is known of the schemas that it names.

ghost use Rattle.std.specs.Prelude.{◌≡◌, ◌+◌, ◌↔◌, ℕ, suc, false, ◌||◌, min, max, map, IsTrue, Some, codes, option_and_then, option_to_list, filter_map, slice_get};
ghost use Rattle.std.specs.Option.{option_map};
ghost use Rattle.json_tree.specs.Values.{text, object};
ghost use Rattle.json_tree.specs.View.{view, members_view};
ghost use Rattle.json_tree.specs.Members.{value_at, value_in};
ghost use Rattle.local_rules.specs.Levels.{parts_by};
ghost use Rattle.local_faults.specs.Machinery.Measured.{AreMeasured, IsMeasure, Measures, MeasuresParts};
ghost use Rattle.local_rules.specs.declared.role.Element.TheVariants as element;

use crate::index::Names;
use crate::look::{entries_at, is_primitive};
use json_tree::{Member, Tree, value_at, value_in};
use local_rules::{Element, Position, type_of};

/// The greatest level that is told apart from greater ones.
const MAX_LEVEL: u8 = 6;

/// The level of a schema, where 6 stands for each level from there on, and whether it is or reaches an array.
#[derive(Clone, Copy, Debug, PartialEq, Eq)]
pub struct Measure {
    pub level: u8,
    pub reaches: bool,
}

impl Measure {
    /// That of what is no complex schema and names none.
    pub fn least() -> Measure
        ensures level { result.level ≡ 0 }
        ensures reaches { result.reaches ≡ false }
    {
        Measure {
            level: 0,
            reaches: false,
        }
    }

    /// That of the parts of which these are the measures.
    pub fn joined(self, other: Measure) -> Measure
        ensures level { result.level ≡ max self.level other.level }
        ensures reaches { result.reaches ≡ (self.reaches || other.reaches) }
    {
        Measure {
            level: self.level.max(other.level),
            reaches: self.reaches || other.reaches,
        }
    }

    /// That of a schema of this kind with parts of this measure.
    pub fn above(self, is_array: bool) -> Measure
        ensures level { result.level ≡ min (self.level + 1) 6 }
        ensures reaches { result.reaches ≡ (is_array || self.reaches) }
    {
        Measure {
            level: self.level.saturating_add(1).min(MAX_LEVEL),
            reaches: is_array || self.reaches,
        }
    }
}

/// What a table has for an entry.
fn measure_at(table: &[Measure], at: usize) -> Measure
    ensures { (m : Measure) → slice_get table.now at ≡ Some m → result ≡ m }
{
    match table.get(at) {
        Some(measure) => *measure,
        None => Measure::least(),
    }
}

/// The measure of a text.
fn measure_of_text(names: &Names, table: &[Measure], name: &str) -> Measure
    ensures { Measures (members_view names.now) table.now (text name.now) result }
{
    if is_primitive(name) {
        return Measure::least();
    }
    match names.position_of_id(name) {
        Some(at) => measure_at(table, at),
        None => Measure::least(),
    }
}

/// Whether a schema of this kind is an array.
fn is_array(kind: Element) -> bool
    ensures { IsTrue result ↔ (kind ≡ element.Array) }
{
    match kind {
        Element::Array => true,
        _ => false,
    }
}

/// The schema of the key or the value of a map.
fn payload_schema<'a>(members: &'a [Member], key: &str) -> Option<&'a Tree>
    ensures { option_map (λ t. view t.now) result ≡ option_and_then (value_in (codes "schema")) (value_at key.now (members_view members.now)) }
{
    match value_at(members, key) {
        Some(payload) => value_in(payload, "schema"),
        None => None,
    }
}

/// The measure of a schema, by a table of those that the interface names.
#[cycle(measures)]
pub fn measure_of(names: &Names, table: &[Measure], tree: &Tree) -> Measure
    ensures { Measures (members_view names.now) table.now (view tree.now) result }
{
    match tree {
        Tree::Null => Measure::least(),
        Tree::Bool(_) => Measure::least(),
        Tree::Number(_) => Measure::least(),
        Tree::Text(text) => measure_of_text(names, table, text.as_str()),
        Tree::List(_) => Measure::least(),
        Tree::Members(members) => measure_of_object(names, table, members.as_slice()),
    }
}

#[cycle(measures)]
fn measure_of_object(names: &Names, table: &[Measure], members: &[Member]) -> Measure
    ensures { (n : ℕ) → AreMeasured (members_view names.now) n table.now → IsMeasure (members_view names.now) (suc n) (object (members_view members.now)) result }
{
    match type_of(Position::Schema, members) {
        Some(kind) => measure_of_parts(names, table, kind, members).above(is_array(kind)),
        None => Measure::least(),
    }
}

/// The measure of the parts of a schema of this kind.
#[cycle(measures)]
fn measure_of_parts(names: &Names, table: &[Measure], kind: Element, members: &[Member]) -> Measure
    ensures { MeasuresParts (members_view names.now) table.now (parts_by (Some kind) (object (members_view members.now))) result }
{
    match kind {
        Element::Array => measure_of_part(names, table, value_at(members, "elementSchema")),
        Element::Map => {
            let key = measure_of_part(names, table, payload_schema(members, "mapKey"));
            let value = measure_of_part(names, table, payload_schema(members, "mapValue"));
            key.joined(value)
        }
        Element::Object => measure_of_fields(names, table, entries_at(members, "fields")),
        _ => Measure::least(),
    }
}

#[cycle(measures)]
fn measure_of_part(names: &Names, table: &[Measure], part: Option<&Tree>) -> Measure
    ensures { MeasuresParts (members_view names.now) table.now (option_to_list (option_map (λ t. view t.now) part.entry)) result }
{
    match part {
        Some(tree) => measure_of(names, table, tree),
        None => Measure::least(),
    }
}

/// The measure of the schemas of fields.
#[cycle(measures)]
fn measure_of_fields(names: &Names, table: &[Measure], fields: &[Tree]) -> Measure
    ensures { MeasuresParts (members_view names.now) table.now (filter_map (value_in (codes "schema")) (map view fields.now)) result }
{
    let mut measure = Measure::least();
    for field in fields {
        measure = measure.joined(measure_of_part(names, table, value_in(field, "schema")));
    }
    measure
}
