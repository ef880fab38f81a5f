//! The interfaces that an interface extends.

ghost use Rattle.std.specs.Prelude.{◌≡◌, ◌++◌, Bool, codes, map, string_bytes, IfOk, OnOk};
ghost use Rattle.json_tree.specs.Values.{elements_of};
ghost use Rattle.json_tree.specs.Printing.{printed, printed_elements};
ghost use Rattle.canon_text.specs.Canonical.{id_value, parent_pair};
ghost use Rattle.canon_text.specs.Objects.{list_in_order, unless_empty};
ghost use Rattle.canon_print.specs.Machinery.Bodies.{IsPrinted};

use crate::heads::{push_head, push_separator};
use crate::sorting::in_order;
use dt_base::OutOfMemory;
use dt_base::names::Dtmi;
use json_tree::push_quoted;
use std::alloc::Global;

/// Appends identifiers, with commas between them, and the closing bracket.
fn push_lent_parents(out: &mut String, parents: &[&Dtmi]) -> Result<(), OutOfMemory>
    ensures { OnOk result (string_bytes out.new ≡ string_bytes out.old ++ printed_elements (elements_of (map (λ p. id_value p.now) parents.now))) }
{
    for (position, parent) in parents.iter().enumerate() {
        push_separator(out, position)?;
        push_quoted(out, parent.as_str())?;
    }
    out.push_str("]")?;
    Ok(())
}

/// Appends identifiers, in their order.
fn push_parents(alloc: Global, out: &mut String, parents: &[Dtmi]) -> Result<(), OutOfMemory>
    ensures { OnOk result (string_bytes out.new ≡ string_bytes out.old ++ printed (list_in_order (map parent_pair parents.now))) }
{
    let list = in_order(alloc, parents)?;
    out.push_str("[")?;
    push_lent_parents(out, list.as_slice())?;
    Ok(())
}

/// Appends the member with the parents of an interface, where it has any, and answers whether still no member was
/// printed.
pub(crate) fn push_optional_parents(
    alloc: Global,
    out: &mut String,
    first: bool,
    parents: &[Dtmi],
) -> Result<bool, OutOfMemory>
    ensures { IfOk result (λ after. IsPrinted (string_bytes out.old) (string_bytes out.new) first after (codes "extends") (unless_empty list_in_order (map parent_pair parents.now))) }
{
    if parents.is_empty() {
        return Ok(first);
    }
    push_head(out, first, "\"extends\":")?;
    push_parents(alloc, out, parents)?;
    Ok(false)
}
