//! The kinds of contents but relationships.

ghost use Rattle.std.specs.Prelude.{◌≡◌, Some, IfOk, OnOk, codes, pos};
ghost use Rattle.json_decimal.specs.Decimals.{number_of};
ghost use Rattle.json_decimal.specs.Comparing.{IsWhole};
ghost use Rattle.json_tree.specs.View.{view, members_view};
ghost use Rattle.json_tree.specs.Values.{number, truth};
ghost use Rattle.json_tree.specs.Members.{value_at};
ghost use Rattle.local_rules.specs.declared.role.Element.TheVariants as element;
ghost use Rattle.local_rules.specs.declared.role.Position.TheVariants as position;
ghost use Rattle.dtdl_terms.specs.TermViews.{payload_term};
ghost use Rattle.std.specs.Option.{option_map};
ghost use Rattle.local_rules.specs.Declarations.{HasMax, HasOptionalPayload, HasOptionalString, HasSemantic, DeclaresWritable};
ghost use Rattle.model_read.specs.Machinery.Gains.{GainsKind};
ghost use Rattle.model_read.specs.Machinery.Shapes.{CanBeMultiplicity, CanBeName, CanBeTypes, CommandShape, ComponentShape, IsValidPayload, IsTruth, MayHave, PropertyShape, TelemetryShape};

use crate::schemas::{payload_at, schema_at};
use crate::semantics::semantic_at;
use crate::texts::{id_at, optional_name};
use dt_base::OutOfMemory;
use dt_base::names::Name;
use dtdl_terms::{Boxed, Common, Content, ContentKind, Payload};
use json_decimal::Decimal;
use json_tree::{Member, Tree, value_at};
use local_rules::Position;
use std::alloc::Global;

/// The truth value that a value is.
#[tactic(auto, using(json_tree::proofs::Views::views))]
fn truth_of(tree: &Tree) -> bool
    requires { IsTruth (view tree.now) }
    ensures { view tree.now ≡ truth result }
{
    match tree {
        Tree::Bool(truth) => *truth,
        Tree::Null | Tree::Number(_) | Tree::Text(_) | Tree::List(_) | Tree::Members(_) => {
            unreachable!()
        }
    }
}

/// Whether an object is writable; it is not where it does not say so.
pub fn is_writable(members: &[Member]) -> bool
    requires { MayHave IsTruth (codes "writable") (members_view members.now) }
    ensures { DeclaresWritable (value_at (codes "writable") (members_view members.now)) result }
{
    match value_at(members, "writable") {
        Some(value) => truth_of(value),
        None => false,
    }
}

/// The whole number of 32 bits without a sign that a number is.
fn count_of(decimal: &Decimal) -> u32
    requires { CanBeMultiplicity (number (number_of decimal.now)) }
    ensures { IsWhole (number_of decimal.now) (pos result) }
{
    match decimal.as_i32() {
        Some(whole) => whole as u32,
        None => unreachable!(),
    }
}

/// The number that a value is.
#[tactic(auto, using(json_tree::proofs::Views::views))]
fn decimal_of(tree: &Tree) -> &Decimal
    requires { CanBeMultiplicity (view tree.now) }
    ensures { view tree.now ≡ number (number_of result.now) }
{
    match tree {
        Tree::Number(decimal) => decimal,
        Tree::Null | Tree::Bool(_) | Tree::Text(_) | Tree::List(_) | Tree::Members(_) => {
            unreachable!()
        }
    }
}

/// The most links of a relationship, where it has a bound.
pub fn max_at(members: &[Member]) -> Option<u32>
    requires { MayHave CanBeMultiplicity (codes "maxMultiplicity") (members_view members.now) }
    ensures { HasMax (members_view members.now) result }
{
    match value_at(members, "maxMultiplicity") {
        None => None,
        Some(value) => Some(count_of(decimal_of(value))),
    }
}

/// The payload under a key, where there is one.
fn optional_payload(
    alloc: Global,
    members: &[Member],
    key: &str,
) -> Result<Option<Boxed<Payload>>, OutOfMemory>
    requires { MayHave IsValidPayload key.now (members_view members.now) }
    ensures { IfOk result (λ p. HasOptionalPayload key.now (members_view members.now) (option_map payload_term p)) }
{
    match value_at(members, key) {
        None => Ok(None),
        Some(_) => Ok(Some(payload_at(alloc, members, key)?)),
    }
}

/// The semantic type and the unit of an object at a position, where it has them.
fn measure_at(
    alloc: Global,
    position: Position,
    members: &[Member],
) -> Result<(Option<Name>, Option<Name>), OutOfMemory>
    requires semantic { MayHave (CanBeTypes position) (codes "@type") (members_view members.now) }
    requires unit { MayHave CanBeName (codes "unit") (members_view members.now) }
    ensures semantic { IfOk result (λ m. HasSemantic position (members_view members.now) m.0) }
    ensures unit { IfOk result (λ m. HasOptionalString (codes "unit") (members_view members.now) m.1) }
{
    let semantic = semantic_at(alloc, position, members)?;
    let Ok(unit) = optional_name(alloc, members, "unit") else {
        drop(semantic);
        return Err(OutOfMemory);
    };
    Ok((semantic, unit))
}

/// Adds the telemetry that members declare to contents; its name and what every element has were read before.
pub fn push_telemetry(
    alloc: Global,
    contents: &mut Vec<Content>,
    name: Name,
    common: Common,
    members: &[Member],
) -> Result<(), OutOfMemory>
    requires { TelemetryShape position.Content (members_view members.now) }
    ensures { OnOk result (GainsKind position.Content (Some element.Telemetry) (members_view members.now) name common contents.old.items contents.new.items) }
{
    let Ok((semantic, unit)) = measure_at(alloc, Position::Content, members) else {
        drop((name, common));
        return Err(OutOfMemory);
    };
    let Ok(schema) = schema_at(alloc, members, "schema") else {
        drop((name, common, semantic, unit));
        return Err(OutOfMemory);
    };
    let kind = ContentKind::Telemetry {
        schema,
        semantic,
        unit,
    };
    contents.push(Content { name, common, kind })?;
    Ok(())
}

/// Adds the property that members declare to contents; its name and what every element has were read before.
pub fn push_property(
    alloc: Global,
    contents: &mut Vec<Content>,
    name: Name,
    common: Common,
    position: Position,
    members: &[Member],
) -> Result<(), OutOfMemory>
    requires { PropertyShape position (members_view members.now) }
    ensures { OnOk result (GainsKind position (Some element.Property) (members_view members.now) name common contents.old.items contents.new.items) }
{
    let Ok((semantic, unit)) = measure_at(alloc, position, members) else {
        drop((name, common));
        return Err(OutOfMemory);
    };
    let writable = is_writable(members);
    let Ok(schema) = schema_at(alloc, members, "schema") else {
        drop((name, common, semantic, unit));
        return Err(OutOfMemory);
    };
    let kind = ContentKind::Property {
        schema,
        semantic,
        unit,
        writable,
    };
    contents.push(Content { name, common, kind })?;
    Ok(())
}

/// Adds the command that members declare to contents; its name and what every element has were read before.
pub fn push_command(
    alloc: Global,
    contents: &mut Vec<Content>,
    name: Name,
    common: Common,
    members: &[Member],
) -> Result<(), OutOfMemory>
    requires { CommandShape (members_view members.now) }
    ensures { OnOk result (GainsKind position.Content (Some element.Command) (members_view members.now) name common contents.old.items contents.new.items) }
{
    let Ok(request) = optional_payload(alloc, members, "request") else {
        drop((name, common));
        return Err(OutOfMemory);
    };
    let Ok(response) = optional_payload(alloc, members, "response") else {
        drop((name, common, request));
        return Err(OutOfMemory);
    };
    let kind = ContentKind::Command { request, response };
    contents.push(Content { name, common, kind })?;
    Ok(())
}

/// Adds the component that members declare to contents; its name and what every element has were read before.
pub fn push_component(
    alloc: Global,
    contents: &mut Vec<Content>,
    name: Name,
    common: Common,
    members: &[Member],
) -> Result<(), OutOfMemory>
    requires { ComponentShape (members_view members.now) }
    ensures { OnOk result (GainsKind position.Content (Some element.Component) (members_view members.now) name common contents.old.items contents.new.items) }
{
    let Ok(of) = id_at(alloc, members, "schema") else {
        drop((name, common));
        return Err(OutOfMemory);
    };
    let kind = ContentKind::Component { of };
    contents.push(Content { name, common, kind })?;
    Ok(())
}
