//! The rules on the values of enums, on the keys of maps and on multiplicities.

ghost use Rattle.std.specs.Prelude.{◌≡◌, ◌↔◌, IsTrue, codes};
ghost use Rattle.json_decimal.specs.Decimals.{number_of};
ghost use Rattle.json_tree.specs.Values.{number as number_value, text};
ghost use Rattle.json_tree.specs.View.{view};
ghost use Rattle.local_rules.specs.Quantities.{BadMapKey, BadMultiplicity, BadValueSchema, IsInteger32, IsMultiplicity, IsNoneOf, IsStringValue};

use crate::role::{Role, SchemaUse, ValueSchema};
use crate::texts::is_text;
use json_decimal::Decimal;
use json_tree::Tree;

/// Whether `valueSchema` names no kind of value.
pub fn is_bad_value_schema(tree: &Tree) -> bool
    ensures { IsTrue result ↔ BadValueSchema Role.ValueSchema (view tree.now) }
{
    !is_text(tree, "integer") && !is_text(tree, "string")
}

/// Whether a value is a whole number of 32 bits.
#[tactic(auto, using(json_tree::proofs::Views::views))]
fn is_integer(tree: &Tree) -> bool
    ensures { IsTrue result ↔ IsInteger32 (view tree.now) }
{
    match tree {
        Tree::Number(number) => is_small(number),
        Tree::Null | Tree::Bool(_) | Tree::Text(_) | Tree::List(_) | Tree::Members(_) => false,
    }
}

/// Whether a number is a whole one of 32 bits.
fn is_small(number: &Decimal) -> bool
    ensures { IsTrue result ↔ IsInteger32 (number_value (number_of number.now)) }
{
    match number.as_i32() {
        Some(_) => true,
        None => false,
    }
}

/// Whether a value is a text.
#[tactic(auto, using(json_tree::proofs::Views::views))]
fn is_string(tree: &Tree) -> bool
    ensures { IsTrue result ↔ IsStringValue (view tree.now) }
{
    match tree {
        Tree::Text(_) => true,
        Tree::Null | Tree::Bool(_) | Tree::Number(_) | Tree::List(_) | Tree::Members(_) => false,
    }
}

/// Whether an enum value is not of the kind that its `valueSchema` asks for.
pub fn is_none_of(value_schema: ValueSchema, tree: &Tree) -> bool
    ensures { IsTrue result ↔ IsNoneOf value_schema (view tree.now) }
{
    match value_schema {
        ValueSchema::Integer => !is_integer(tree),
        ValueSchema::String => !is_string(tree),
        ValueSchema::Neither => false,
    }
}

/// Whether a schema is that of a map's key, and not `string`.
pub fn is_bad_map_key(part: SchemaUse, tree: &Tree) -> bool
    ensures { IsTrue result ↔ BadMapKey (Role.Schema part) (view tree.now) }
{
    match part {
        SchemaUse::MapKey => !is_text(tree, "string"),
        SchemaUse::Outer | SchemaUse::Property | SchemaUse::Inner => false,
    }
}

/// Whether a value is a whole number from 1 to 2,147,483,647.
#[tactic(auto, using(json_tree::proofs::Views::views))]
fn is_multiplicity(tree: &Tree) -> bool
    ensures { IsTrue result ↔ IsMultiplicity (view tree.now) }
{
    match tree {
        Tree::Number(number) => is_positive(number),
        Tree::Null | Tree::Bool(_) | Tree::Text(_) | Tree::List(_) | Tree::Members(_) => false,
    }
}

/// Whether a number is a whole one from 1 to 2,147,483,647.
fn is_positive(number: &Decimal) -> bool
    ensures { IsTrue result ↔ IsMultiplicity (number_value (number_of number.now)) }
{
    match number.as_i32() {
        Some(whole) => whole >= 1,
        None => false,
    }
}

/// Whether `minMultiplicity` is not 0.
#[tactic(auto, using(json_tree::proofs::Views::views))]
pub fn is_bad_min_multiplicity(tree: &Tree) -> bool
    ensures { IsTrue result ↔ BadMultiplicity Role.MinMultiplicity (view tree.now) }
{
    match tree {
        Tree::Number(number) => !number.is_zero(),
        Tree::Null | Tree::Bool(_) | Tree::Text(_) | Tree::List(_) | Tree::Members(_) => true,
    }
}

/// Whether `maxMultiplicity` is no whole number from 1 to 2,147,483,647.
pub fn is_bad_max_multiplicity(tree: &Tree) -> bool
    ensures { IsTrue result ↔ BadMultiplicity Role.MaxMultiplicity (view tree.now) }
{
    !is_multiplicity(tree)
}
