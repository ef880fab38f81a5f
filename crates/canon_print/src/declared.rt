//! The schemas that an interface declares.

ghost use Rattle.std.specs.Prelude.{◌≡◌, ◌++◌, Bool, codes, map, string_bytes, IfOk, OnOk};
ghost use Rattle.json_tree.specs.Values.{elements_of};
ghost use Rattle.json_tree.specs.Printing.{printed, printed_elements};
ghost use Rattle.dtdl_terms.specs.TermViews.{schema_term};
ghost use Rattle.canon_text.specs.Canonical.{schema_value, schema_pair};
ghost use Rattle.canon_text.specs.Objects.{list_in_order, unless_empty};
ghost use Rattle.canon_print.specs.Machinery.Bodies.{IsPrinted};

use crate::heads::{push_head, push_separator};
use crate::schemas::push_schema;
use crate::sorting::in_order;
use dt_base::OutOfMemory;
use dtdl_terms::Schema;
use std::alloc::Global;

/// Appends schemas, with commas between them, and the closing bracket.
fn push_lent_schemas(
    alloc: Global,
    out: &mut String,
    schemas: &[&Schema],
) -> Result<(), OutOfMemory>
    ensures { OnOk result (string_bytes out.new ≡ string_bytes out.old ++ printed_elements (elements_of (map (λ s. schema_value (schema_term s.now)) schemas.now))) }
{
    for (position, schema) in schemas.iter().enumerate() {
        push_separator(out, position)?;
        push_schema(alloc, out, schema)?;
    }
    out.push_str("]")?;
    Ok(())
}

/// Appends schemas, in the order of their identifiers.
fn push_schemas(alloc: Global, out: &mut String, schemas: &[Schema]) -> Result<(), OutOfMemory>
    ensures { OnOk result (string_bytes out.new ≡ string_bytes out.old ++ printed (list_in_order (map (λ s. schema_pair (schema_term s)) schemas.now))) }
{
    let list = in_order(alloc, schemas)?;
    out.push_str("[")?;
    push_lent_schemas(alloc, out, list.as_slice())?;
    Ok(())
}

/// Appends the member with the schemas that an interface declares, where it declares any, and answers whether still no
/// member was printed.
pub(crate) fn push_optional_schemas(
    alloc: Global,
    out: &mut String,
    first: bool,
    schemas: &[Schema],
) -> Result<bool, OutOfMemory>
    ensures { IfOk result (λ after. IsPrinted (string_bytes out.old) (string_bytes out.new) first after (codes "schemas")
        (unless_empty list_in_order (map (λ s. schema_pair (schema_term s)) schemas.now))) }
{
    if schemas.is_empty() {
        return Ok(first);
    }
    push_head(out, first, "\"schemas\":")?;
    push_schemas(alloc, out, schemas)?;
    Ok(false)
}
