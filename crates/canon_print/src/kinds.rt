//! Contents by their kinds.

ghost use Rattle.std.specs.Prelude.{◌≡◌, ◌++◌, [], ◌∷◌, ℕ, List, Bool, Some, codes, string_bytes, IfOk, OnOk};
ghost use Rattle.std.specs.Option.{option_map};
ghost use Rattle.json_tree.specs.Printing.{printed, quoted};
ghost use Rattle.json_tree.specs.Values.{text};
ghost use Rattle.dtdl_terms.specs.Terms.{content, telemetry, property, command, component};
ghost use Rattle.dtdl_terms.specs.TermViews.{schema_term, payload_term};
ghost use Rattle.canon_text.specs.Canonical.{content_value, element_parts, payload_value, schema_value, typed};
ghost use Rattle.canon_print.specs.Machinery.Bodies.{head_text, IsPrinted, IsBegun};

use crate::elements::{push_semantic, push_typed};
use crate::heads::push_head;
use crate::marks::push_writable;
use crate::schemas::{push_payload, push_schema};
use crate::texts::{push_name, push_optional_name, push_text};
use dt_base::OutOfMemory;
use dt_base::names::{Dtmi, Name};
use dtdl_terms::{Boxed, Content, Payload, Schema};
use std::alloc::Global;

/// Appends a telemetry or a property up to its unit, and answers whether no member was printed.
fn push_measured(
    alloc: Global,
    out: &mut String,
    quoted_kind: &str,
    item: &Content,
    of: &Schema,
    semantic: &Option<Name>,
    unit: &Option<Name>,
) -> Result<bool, OutOfMemory>
    ensures { IfOk result (λ after. (kind : List ℕ) → quoted_kind.now ≡ quoted kind
        → IsBegun (string_bytes out.old) (string_bytes out.new) after (element_parts (Some (typed kind semantic.now)) item.now.common
        ++ (codes "name", Some (text item.now.name)) ∷ (codes "schema", Some (schema_value (schema_term of.now))) ∷ (codes "unit", option_map text unit.now) ∷ [])) }
{
    let first = push_semantic(alloc, out, quoted_kind, semantic, &item.common)?;
    push_name(out, first, "\"name\":", &item.name)?;
    push_head(out, false, "\"schema\":")?;
    push_schema(alloc, out, of)?;
    let first = push_optional_name(out, false, "\"unit\":", unit)?;
    Ok(first)
}

/// Appends a telemetry.
pub(crate) fn push_telemetry(
    alloc: Global,
    out: &mut String,
    item: &Content,
    kind: &Schema,
    semantic: &Option<Name>,
    unit: &Option<Name>,
) -> Result<(), OutOfMemory>
    ensures { OnOk result (string_bytes out.new ≡ string_bytes out.old ++ printed (content_value (content item.now.name item.now.common (telemetry (schema_term kind.now) semantic.now unit.now)))) }
{
    push_measured(alloc, out, "\"Telemetry\"", item, kind, semantic, unit)?;
    out.push_str("}")?;
    Ok(())
}

/// Appends a property.
pub(crate) fn push_property(
    alloc: Global,
    out: &mut String,
    item: &Content,
    kind: &Schema,
    semantic: &Option<Name>,
    unit: &Option<Name>,
    writable: bool,
) -> Result<(), OutOfMemory>
    ensures { OnOk result (string_bytes out.new ≡ string_bytes out.old ++ printed (content_value (content item.now.name item.now.common (property (schema_term kind.now) semantic.now unit.now writable)))) }
{
    let first = push_measured(alloc, out, "\"Property\"", item, kind, semantic, unit)?;
    push_writable(out, first, writable)?;
    out.push_str("}")?;
    Ok(())
}

/// Appends a member with a payload, where there is one, and answers whether still none was printed.
fn push_optional_payload(
    alloc: Global,
    out: &mut String,
    first: bool,
    head: &str,
    value: &Option<Boxed<Payload>>,
) -> Result<bool, OutOfMemory>
    ensures { IfOk result (λ after. (key : List ℕ) → head.now ≡ head_text key
        → IsPrinted (string_bytes out.old) (string_bytes out.new) first after key (option_map payload_value (option_map payload_term value.now))) }
{
    match value {
        Some(value) => {
            push_head(out, first, head)?;
            push_payload(alloc, out, value.get())?;
            Ok(false)
        }
        None => Ok(first),
    }
}

/// Appends a command.
pub(crate) fn push_command(
    alloc: Global,
    out: &mut String,
    item: &Content,
    request: &Option<Boxed<Payload>>,
    response: &Option<Boxed<Payload>>,
) -> Result<(), OutOfMemory>
    ensures { OnOk result (string_bytes out.new ≡ string_bytes out.old ++ printed (content_value (content item.now.name item.now.common (command (option_map payload_term request.now) (option_map payload_term response.now))))) }
{
    let first = push_typed(alloc, out, "\"@type\":\"Command\"", &item.common)?;
    push_name(out, first, "\"name\":", &item.name)?;
    let first = push_optional_payload(alloc, out, false, "\"request\":", request)?;
    push_optional_payload(alloc, out, first, "\"response\":", response)?;
    out.push_str("}")?;
    Ok(())
}

/// Appends a component.
pub(crate) fn push_component(
    alloc: Global,
    out: &mut String,
    item: &Content,
    of: &Dtmi,
) -> Result<(), OutOfMemory>
    ensures { OnOk result (string_bytes out.new ≡ string_bytes out.old ++ printed (content_value (content item.now.name item.now.common (component of.now)))) }
{
    let first = push_typed(alloc, out, "\"@type\":\"Component\"", &item.common)?;
    push_name(out, first, "\"name\":", &item.name)?;
    push_text(out, false, "\"schema\":", of.as_str())?;
    out.push_str("}")?;
    Ok(())
}
