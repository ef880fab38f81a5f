//! Interfaces.

ghost use Rattle.std.specs.Prelude.{◌≡◌, ◌++◌, [], ◌∷◌, Some, map, codes, string_bytes, IfOk, OnOk};
ghost use Rattle.std.specs.Option.{option_map};
ghost use Rattle.json_tree.specs.Values.{text};
ghost use Rattle.dtdl_terms.specs.TermViews.{schema_term};
ghost use Rattle.canon_text.specs.Canonical.{id_value, localized_value, parent_pair, schema_pair, interface_text};
ghost use Rattle.canon_text.specs.Objects.{list_in_order, unless_empty};
ghost use Rattle.canon_print.specs.Machinery.Bodies.{parts_left, IsBegun};

use crate::contents::push_optional_contents;
use crate::declared::push_optional_schemas;
use crate::heads::push_head;
use crate::localized::push_localized;
use crate::parents::push_optional_parents;
use crate::texts::{push_optional_text, push_text};
use dt_base::OutOfMemory;
use dtdl_terms::Interface;
use std::alloc::Global;

/// Appends the opening brace and the members of an interface up to its comment, and answers whether no member was printed.
fn push_opening(out: &mut String, interface: &Interface) -> Result<bool, OutOfMemory>
    ensures { IfOk result (λ after. IsBegun (string_bytes out.old) (string_bytes out.new) after ((codes "@context", Some (text (codes "dtmi:dtdl:context;2")))
        ∷ (codes "@id", Some (id_value interface.now.id)) ∷ (codes "@type", Some (text (codes "Interface"))) ∷ (codes "comment", option_map text interface.now.comment) ∷ [])) }
{
    out.push_str("{")?;
    push_head(out, true, "\"@context\":\"dtmi:dtdl:context;2\"")?;
    push_text(out, false, "\"@id\":", interface.id.as_str())?;
    push_head(out, false, "\"@type\":\"Interface\"")?;
    let first = push_optional_text(out, false, "\"comment\":", &interface.comment)?;
    Ok(first)
}

/// Appends the members of an interface behind its contents, and the closing brace.
fn push_closing(
    alloc: Global,
    out: &mut String,
    first: bool,
    interface: &Interface,
) -> Result<(), OutOfMemory>
    ensures { OnOk result (string_bytes out.new ≡ string_bytes out.old ++ parts_left first ((codes "description", localized_value interface.now.description)
        ∷ (codes "displayName", localized_value interface.now.display_name) ∷ (codes "extends", unless_empty list_in_order (map parent_pair interface.now.parents))
        ∷ (codes "schemas", unless_empty list_in_order (map (λ s. schema_pair (schema_term s)) interface.now.schemas)) ∷ [])) }
{
    let first = push_localized(
        alloc,
        out,
        first,
        "\"description\":",
        &interface.description,
    )?;
    let first = push_localized(
        alloc,
        out,
        first,
        "\"displayName\":",
        &interface.display_name,
    )?;
    let first = push_optional_parents(alloc, out, first, interface.parents.as_slice())?;
    push_optional_schemas(alloc, out, first, interface.schemas.as_slice())?;
    out.push_str("}")?;
    Ok(())
}

/// Appends the canonical text of an interface, which `canon_text::canon_interface` gives, without its tree. Fails only for
/// want of memory. The call goes down as deep as schemas lie in one another.
pub fn push_interface(
    alloc: Global,
    out: &mut String,
    interface: &Interface,
) -> Result<(), OutOfMemory>
    ensures { OnOk result (string_bytes out.new ≡ string_bytes out.old ++ interface_text interface.now) }
{
    let first = push_opening(out, interface)?;
    let contents = interface.contents.as_slice();
    let first = push_optional_contents(alloc, out, first, "\"contents\":", contents)?;
    push_closing(alloc, out, first, interface)?;
    Ok(())
}
