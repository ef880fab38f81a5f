//! Sets of interfaces.

ghost use Rattle.std.specs.Prelude.{◌≡◌, ◌++◌, map, string_bytes, OnOk};
ghost use Rattle.json_tree.specs.Values.{elements_of};
ghost use Rattle.json_tree.specs.Printing.{printed_elements};
ghost use Rattle.canon_text.specs.Canonical.{interface_value, set_text};

use crate::heads::push_separator;
use crate::interfaces::push_interface;
use crate::sorting::in_order;
use dt_base::OutOfMemory;
use dtdl_terms::Interface;
use std::alloc::Global;

/// Appends the canonical texts of interfaces, with commas between them, and the closing bracket.
fn push_lent_interfaces(
    alloc: Global,
    out: &mut String,
    interfaces: &[&Interface],
) -> Result<(), OutOfMemory>
    ensures { OnOk result (string_bytes out.new ≡ string_bytes out.old ++ printed_elements (elements_of (map (λ i. interface_value i.now) interfaces.now))) }
{
    for (position, interface) in interfaces.iter().enumerate() {
        push_separator(out, position)?;
        push_interface(alloc, out, interface)?;
    }
    out.push_str("]")?;
    Ok(())
}

/// Appends the canonical text of a set of interfaces, which `canon_text::canon` gives, without a tree. Fails only for want
/// of memory.
pub fn push_set(
    alloc: Global,
    out: &mut String,
    interfaces: &[Interface],
) -> Result<(), OutOfMemory>
    ensures { OnOk result (string_bytes out.new ≡ string_bytes out.old ++ set_text interfaces.now) }
{
    let list = in_order(alloc, interfaces)?;
    out.push_str("[")?;
    push_lent_interfaces(alloc, out, list.as_slice())?;
    out.push_str("\n")?;
    Ok(())
}
