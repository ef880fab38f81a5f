//! Values without their parts.

ghost use Rattle.std.specs.Prelude.{◌≡◌, ◌↔◌, ◌⊎◌, ℤ, IsTrue};
ghost use Rattle.std.specs.Int.{w32, w64};
ghost use Rattle.std.specs.Option.{option_map, IsSomeAnd};
ghost use Rattle.json_decimal.specs.Decimals.{number_of};
ghost use Rattle.json_tree.specs.View.{view};
ghost use Rattle.dtdl_terms.specs.TermViews.{schema_term};
ghost use Rattle.value_texts.specs.Clock.{IsDate, IsTime, IsDateTime};
ghost use Rattle.value_texts.specs.Durations.{IsDuration};
ghost use Rattle.twin_value.specs.Fits.{is_array, is_object, is_truth, number_in, IsTextThat, IsWholeWithin, IsOfPrimitive, EqualsEnumValue, IsAnyOf, IsOf};

use dtdl_terms::{EnumEntry, EnumValue, Primitive, Schema};
use json_decimal::Decimal;
use json_tree::{Tree, text_in};
use value_texts::{is_date, is_date_time, is_duration, is_time};

#[tactic(auto, using(json_tree::proofs::Views::views))]
pub fn is_object(tree: &Tree) -> bool
    ensures { result ≡ is_object (view tree.now) }
{
    match tree {
        Tree::Members(_) => true,
        Tree::Null | Tree::Bool(_) | Tree::Number(_) | Tree::Text(_) | Tree::List(_) => false,
    }
}

#[tactic(auto, using(json_tree::proofs::Views::views))]
fn is_array(tree: &Tree) -> bool
    ensures { result ≡ is_array (view tree.now) }
{
    match tree {
        Tree::List(_) => true,
        Tree::Null | Tree::Bool(_) | Tree::Number(_) | Tree::Text(_) | Tree::Members(_) => false,
    }
}

#[tactic(auto, using(json_tree::proofs::Views::views))]
fn is_truth(tree: &Tree) -> bool
    ensures { result ≡ is_truth (view tree.now) }
{
    match tree {
        Tree::Bool(_) => true,
        Tree::Null | Tree::Number(_) | Tree::Text(_) | Tree::List(_) | Tree::Members(_) => false,
    }
}

/// The number that a value is.
#[tactic(auto, using(json_tree::proofs::Views::views))]
fn number_in(tree: &Tree) -> Option<&Decimal>
    ensures { option_map (λ d. number_of d.now) result ≡ number_in (view tree.now) }
{
    match tree {
        Tree::Number(decimal) => Some(decimal),
        Tree::Null | Tree::Bool(_) | Tree::Text(_) | Tree::List(_) | Tree::Members(_) => None,
    }
}

fn is_date_value(tree: &Tree) -> bool
    ensures { IsTrue result ↔ IsTextThat IsDate (view tree.now) }
{
    match text_in(tree) {
        Some(text) => is_date(text),
        None => false,
    }
}

fn is_date_time_value(tree: &Tree) -> bool
    ensures { IsTrue result ↔ IsTextThat IsDateTime (view tree.now) }
{
    match text_in(tree) {
        Some(text) => is_date_time(text),
        None => false,
    }
}

fn is_time_value(tree: &Tree) -> bool
    ensures { IsTrue result ↔ IsTextThat IsTime (view tree.now) }
{
    match text_in(tree) {
        Some(text) => is_time(text),
        None => false,
    }
}

fn is_duration_value(tree: &Tree) -> bool
    ensures { IsTrue result ↔ IsTextThat IsDuration (view tree.now) }
{
    match text_in(tree) {
        Some(text) => is_duration(text),
        None => false,
    }
}

fn is_integer(tree: &Tree) -> bool
    ensures { IsTrue result ↔ IsWholeWithin w32 (view tree.now) }
{
    let Some(decimal) = number_in(tree) else {
        return false;
    };
    match decimal.as_i32() {
        Some(_whole) => true,
        None => false,
    }
}

fn is_long(tree: &Tree) -> bool
    ensures { IsTrue result ↔ IsWholeWithin w64 (view tree.now) }
{
    let Some(decimal) = number_in(tree) else {
        return false;
    };
    match decimal.as_i64() {
        Some(_whole) => true,
        None => false,
    }
}

/// Whether a value is of a primitive schema.
fn is_primitive(primitive: Primitive, tree: &Tree) -> bool
    ensures { IsTrue result ↔ IsOfPrimitive primitive (view tree.now) }
{
    match primitive {
        Primitive::Boolean => is_truth(tree),
        Primitive::Date => is_date_value(tree),
        Primitive::DateTime => is_date_time_value(tree),
        Primitive::Double => number_in(tree).is_some(),
        Primitive::Duration => is_duration_value(tree),
        Primitive::Float => number_in(tree).is_some(),
        Primitive::Integer => is_integer(tree),
        Primitive::Long => is_long(tree),
        Primitive::Str => text_in(tree).is_some(),
        Primitive::Time => is_time_value(tree),
    }
}

/// Whether a value is this whole number.
fn is_whole(whole: i32, tree: &Tree) -> bool
    ensures { IsTrue result ↔ EqualsEnumValue (EnumValue.Number whole) (view tree.now) }
{
    let Some(decimal) = number_in(tree) else {
        return false;
    };
    match decimal.as_i32() {
        Some(number) => { if number == whole { true } else { false } }
        None => false,
    }
}

/// Whether a value is this text.
fn is_word(word: &str, tree: &Tree) -> bool
    ensures { IsTrue result ↔ EqualsEnumValue (EnumValue.Word word.now) (view tree.now) }
{
    match text_in(tree) {
        Some(text) => text == word,
        None => false,
    }
}

fn is_enum_value(value: &EnumValue, tree: &Tree) -> bool
    ensures { IsTrue result ↔ EqualsEnumValue value.now (view tree.now) }
{
    match value {
        EnumValue::Number(whole) => is_whole(*whole, tree),
        EnumValue::Word(word) => is_word(word.as_str(), tree),
    }
}

/// Whether a value is that of an entry of an enumeration.
fn is_any_of(entries: &[EnumEntry], tree: &Tree) -> bool
    ensures { IsTrue result ↔ IsAnyOf entries.now (view tree.now) }
{
    for entry in entries {
        if is_enum_value(&entry.value, tree) {
            return true;
        }
    }
    false
}

/// Whether a value is of a schema, as far as it shows without its parts.
#[tactic(auto, using(crate::proofs::Schemas::terms))]
fn is_of_schema(schema: &Schema, tree: &Tree) -> bool
    ensures { IsTrue result ↔ IsOf (Some (schema_term schema.now)) (view tree.now) }
{
    match schema {
        Schema::Primitive(primitive) => is_primitive(*primitive, tree),
        Schema::Named(_) => false,
        Schema::Array { .. } => is_array(tree),
        Schema::Enumeration { values, .. } => is_any_of(values.as_slice(), tree),
        Schema::Map { .. } => is_object(tree),
        Schema::Object { .. } => is_object(tree),
    }
}

/// The same of no value where there is no schema.
pub fn is_of(schema: Option<&Schema>, tree: &Tree) -> bool
    ensures { IsTrue result ↔ IsOf (option_map (λ s. schema_term s.now) schema.entry) (view tree.now) }
{
    match schema {
        Some(schema) => is_of_schema(schema, tree),
        None => false,
    }
}
