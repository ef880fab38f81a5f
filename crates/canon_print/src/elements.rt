//! What every element may have.

ghost use Rattle.std.specs.Prelude.{◌≡◌, ◌++◌, [], ◌∷◌, ℕ, List, Bool, false, Option, Some, None, codes, string_bytes, IfOk, OnOk};
ghost use Rattle.std.specs.Option.{option_map};
ghost use Rattle.json_tree.specs.Values.{Json};
ghost use Rattle.json_tree.specs.Printing.{printed, quoted};
ghost use Rattle.canon_text.specs.Canonical.{id_value, element_parts, typed};
ghost use Rattle.canon_print.specs.Machinery.Bodies.{head_text, parts_left, IsPrinted, IsBegun};
ghost use Rattle.canon_print.specs.Machinery.Remarks.{remark_parts};

use crate::heads::push_head;
use crate::localized::push_localized;
use crate::texts::{push_optional_id, push_optional_text, push_quoted_name};
use dt_base::OutOfMemory;
use dt_base::names::Name;
use dtdl_terms::Common;
use std::alloc::Global;

/// Appends the opening brace, and the identifier where there is one.
fn push_start(out: &mut String, common: &Common) -> Result<bool, OutOfMemory>
    ensures { IfOk result (λ after. IsBegun (string_bytes out.old) (string_bytes out.new) after ((codes "@id", option_map id_value common.now.id) ∷ [])) }
{
    out.push_str("{")?;
    let first = push_optional_id(out, true, "\"@id\":", &common.id)?;
    Ok(first)
}

/// Appends the comment, the description and the display name, where there are such.
fn push_remarks(
    alloc: Global,
    out: &mut String,
    first: bool,
    common: &Common,
) -> Result<bool, OutOfMemory>
    ensures { IfOk result (λ after. (own : List (List ℕ × Option Json)) → string_bytes out.old ++ parts_left first (remark_parts common.now own) ≡ string_bytes out.new ++ parts_left after own) }
{
    let first = push_optional_text(out, first, "\"comment\":", &common.comment)?;
    let first = push_localized(alloc, out, first, "\"description\":", &common.description)?;
    let first = push_localized(alloc, out, first, "\"displayName\":", &common.display_name)?;
    Ok(first)
}

/// Appends an element without a type up to what it has of its own, and answers whether no member was printed.
pub(crate) fn push_untyped(
    alloc: Global,
    out: &mut String,
    common: &Common,
) -> Result<bool, OutOfMemory>
    ensures { IfOk result (λ after. IsBegun (string_bytes out.old) (string_bytes out.new) after (element_parts None common.now)) }
{
    let first = push_start(out, common)?;
    let first = push_remarks(alloc, out, first, common)?;
    Ok(first)
}

/// Appends an element with the member of its type up to what it has of its own, and answers whether no member was
/// printed.
pub(crate) fn push_typed(
    alloc: Global,
    out: &mut String,
    member: &str,
    common: &Common,
) -> Result<bool, OutOfMemory>
    ensures { IfOk result (λ after. (type : Json) → member.now ≡ head_text (codes "@type") ++ printed type
        → IsBegun (string_bytes out.old) (string_bytes out.new) after (element_parts (Some type) common.now)) }
{
    let first = push_start(out, common)?;
    push_head(out, first, member)?;
    let first = push_remarks(alloc, out, false, common)?;
    Ok(first)
}

/// Appends the member of a type, which is given between its quotation marks, or of a list of it and the semantic type.
fn push_type(
    out: &mut String,
    first: bool,
    quoted_kind: &str,
    semantic: &Option<Name>,
) -> Result<(), OutOfMemory>
    ensures { OnOk result ((kind : List ℕ) → quoted_kind.now ≡ quoted kind
        → IsPrinted (string_bytes out.old) (string_bytes out.new) first false (codes "@type") (Some (typed kind semantic.now))) }
{
    match semantic {
        Some(name) => {
            push_head(out, first, "\"@type\":[")?;
            out.push_str(quoted_kind)?;
            out.push_str(",")?;
            push_quoted_name(out, name)?;
            out.push_str("]")?;
            Ok(())
        }
        None => {
            push_head(out, first, "\"@type\":")?;
            out.push_str(quoted_kind)?;
            Ok(())
        }
    }
}

/// Appends an element with its type, which is given between its quotation marks, and its semantic type up to what it has
/// of its own, and answers whether no member was printed.
pub(crate) fn push_semantic(
    alloc: Global,
    out: &mut String,
    quoted_kind: &str,
    semantic: &Option<Name>,
    common: &Common,
) -> Result<bool, OutOfMemory>
    ensures { IfOk result (λ after. (kind : List ℕ) → quoted_kind.now ≡ quoted kind
        → IsBegun (string_bytes out.old) (string_bytes out.new) after (element_parts (Some (typed kind semantic.now)) common.now)) }
{
    let first = push_start(out, common)?;
    push_type(out, first, quoted_kind, semantic)?;
    let first = push_remarks(alloc, out, false, common)?;
    Ok(first)
}
