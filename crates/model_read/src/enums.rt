//! The entries of enumerations.

ghost use Rattle.std.specs.Prelude.{◌≡◌, IfOk, codes};
ghost use Rattle.std.specs.List.{AllZip};
ghost use Rattle.json_decimal.specs.Decimals.{number_of};
ghost use Rattle.json_tree.specs.Values.{number, text};
ghost use Rattle.json_tree.specs.View.{view, members_view, elements_view};
ghost use Rattle.json_tree.specs.Members.{list_of};
ghost use Rattle.local_rules.specs.Declarations.{DeclaresEnumEntry, HasString, IsEnumEntry, IsEnumValue, value_schema};
ghost use Rattle.model_read.specs.Machinery.Shapes.{CanBeEnumValue, CanBeValueSchema, EachIs, EnumEntryShape, HasMember, IsValidEnumEntry};

use crate::common::common_of;
use crate::parts::{members_of, wanted};
use crate::texts::{bytes_of, name_at};
use dt_base::{List, OutOfMemory};
use dtdl_terms::{EnumEntry, EnumValue};
use json_decimal::Decimal;
use json_tree::{Member, Tree};
use std::alloc::Global;

/// The enum value that a number is.
fn number_value(decimal: &Decimal) -> EnumValue
    requires { CanBeEnumValue (number (number_of decimal.now)) }
    ensures { IsEnumValue (number (number_of decimal.now)) result }
{
    match decimal.as_i32() {
        Some(whole) => EnumValue::Number(whole),
        None => unreachable!(),
    }
}

/// The enum value that a value is.
#[tactic(auto, using(json_tree::proofs::Views::views))]
fn enum_value_of(alloc: Global, tree: &Tree) -> Result<EnumValue, OutOfMemory>
    requires { CanBeEnumValue (view tree.now) }
    ensures { IfOk result (λ v. IsEnumValue (view tree.now) v) }
{
    match tree {
        Tree::Number(number) => Ok(number_value(number)),
        Tree::Text(text) => Ok(EnumValue::Word(text.copy(alloc)?)),
        Tree::Null | Tree::Bool(_) | Tree::List(_) | Tree::Members(_) => unreachable!(),
    }
}

/// The entry of an enumeration that members declare.
fn enum_entry_in(alloc: Global, members: &[Member]) -> Result<EnumEntry, OutOfMemory>
    requires { EnumEntryShape (members_view members.now) }
    ensures { IfOk result (λ e. DeclaresEnumEntry (members_view members.now) e) }
{
    let value = enum_value_of(alloc, wanted(members, "enumValue"))?;
    let Ok(name) = name_at(alloc, members, "name") else {
        drop(value);
        return Err(OutOfMemory);
    };
    let Ok(common) = common_of(alloc, members) else {
        drop((name, value));
        return Err(OutOfMemory);
    };
    Ok(EnumEntry {
        name,
        common,
        value,
    })
}

/// The entry of an enumeration that a value declares.
fn enum_entry_of(alloc: Global, tree: &Tree) -> Result<EnumEntry, OutOfMemory>
    requires { IsValidEnumEntry (view tree.now) }
    ensures { IfOk result (λ e. IsEnumEntry (view tree.now) e) }
{
    enum_entry_in(alloc, members_of(tree))
}

/// The entries of an enumeration.
pub fn enum_entries_of(alloc: Global, trees: &[Tree]) -> Result<List<EnumEntry>, OutOfMemory>
    requires { EachIs IsValidEnumEntry (elements_view trees.now) }
    ensures { IfOk result (λ es. AllZip IsEnumEntry (list_of (elements_view trees.now)) es) }
{
    let mut entries = Vec::with_capacity(alloc, trees.len())?;
    for tree in trees {
        entries.push(enum_entry_of(alloc, tree)?)?;
    }
    Ok(List::from_vec(entries))
}

/// Whether a name of `valueSchema` asks for texts.
fn asks_for_text(name: &str) -> bool
    requires { CanBeValueSchema (text name.now) }
    ensures { name.now ≡ value_schema result }
{
    match name {
        "string" => true,
        "integer" => false,
        _ => unreachable!(),
    }
}

/// Whether the values of an enumeration are texts.
pub fn is_of_text(members: &[Member]) -> bool
    requires { HasMember CanBeValueSchema (codes "valueSchema") (members_view members.now) }
    ensures { HasString (codes "valueSchema") (members_view members.now) (value_schema result) }
{
    let value = wanted(members, "valueSchema");
    let name = bytes_of(value);
    asks_for_text(name)
}
