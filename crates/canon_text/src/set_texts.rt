//! Sets of interfaces, as trees and as texts.

ghost use Rattle.std.specs.Prelude.{◌≡◌, ◌++◌, map, string_bytes, IfOk, OnOk};
ghost use Rattle.json_tree.specs.Values.{elements_of};
ghost use Rattle.json_tree.specs.Printing.{printed_elements};
ghost use Rattle.json_tree.specs.View.{view, member_view};
ghost use Rattle.json_tree.specs.Machinery.Pieces.{comma_before};
ghost use Rattle.canon_text.specs.Canonical.{interface_value, interface_pair, interface_text, set_value, set_text};
ghost use Rattle.canon_text.specs.Sorting.{sorted_by};
ghost use Rattle.canon_text.specs.Machinery.Pairs.{pair_name, pair_at};

use crate::interfaces::canon_tree;
use crate::parts::push_named;
use crate::sorting::list_in_order;
use dt_base::{List, OutOfMemory, Text};
use dtdl_terms::Interface;
use json_tree::{Member, Tree, print};
use std::alloc::Global;

/// Interfaces by their identifiers.
fn named_interfaces(alloc: Global, items: &[Interface]) -> Result<Vec<Member>, OutOfMemory>
    ensures { IfOk result (λ members. map member_view members.items ≡ map interface_pair items.now) }
{
    let mut members = Vec::with_capacity(alloc, items.len())?;
    for item in items {
        let value = canon_tree(alloc, item)?;
        push_named(alloc, &mut members, item.id.as_str(), value)?;
    }
    Ok(members)
}

/// The canonical tree of a set of interfaces, of which `canon` gives the text: a list of their canonical trees in the order
/// of their identifiers. Fails only for want of memory.
pub fn canon_set_tree(alloc: Global, interfaces: &[Interface]) -> Result<Tree, OutOfMemory>
    ensures { IfOk result (λ tree. view tree ≡ set_value interfaces.now) }
{
    let members = named_interfaces(alloc, interfaces)?;
    list_in_order(alloc, members)
}

/// The interfaces where they are, in their order.
fn lent<'a>(alloc: Global, interfaces: &'a [Interface]) -> Result<Vec<&'a Interface>, OutOfMemory>
    ensures { IfOk result (λ list. map pair_at list.items ≡ map interface_pair interfaces.now) }
{
    let mut list = Vec::with_capacity(alloc, interfaces.len())?;
    for interface in interfaces {
        list.push(interface)?;
    }
    Ok(list)
}

/// Puts interfaces into the order of their identifiers.
fn sort_lent(list: &mut Vec<&Interface>) -> Result<(), OutOfMemory>
    ensures { OnOk result (map pair_at list.new.items ≡ sorted_by pair_name (map pair_at list.old.items)) }
{
    list.sort_by(|a, b| a.id.as_str().cmp(b.id.as_str()))?;
    Ok(())
}

/// The interfaces where they are, in the order of their identifiers.
fn in_order<'a>(
    alloc: Global,
    interfaces: &'a [Interface],
) -> Result<Vec<&'a Interface>, OutOfMemory>
    ensures { IfOk result (λ list. map pair_at list.items ≡ sorted_by pair_name (map interface_pair interfaces.now)) }
{
    let mut list = lent(alloc, interfaces)?;
    sort_lent(&mut list)?;
    Ok(list)
}

/// Appends a comma, unless this is the first position.
fn push_comma(out: &mut String, position: usize) -> Result<(), OutOfMemory>
    ensures { OnOk result (string_bytes out.new ≡ string_bytes out.old ++ comma_before position) }
{
    if position > 0 {
        out.push_str(",")?;
    }
    Ok(())
}

/// The canonical text of an interface, without its tree.
fn text_of(alloc: Global, interface: &Interface) -> Result<Text, OutOfMemory>
    ensures { IfOk result (λ text. text ≡ interface_text interface.now) }
{
    let tree = canon_tree(alloc, interface)?;
    print(alloc, &tree)
}

/// Appends the canonical text of an interface.
fn push_interface(alloc: Global, out: &mut String, interface: &Interface) -> Result<(), OutOfMemory>
    ensures { OnOk result (string_bytes out.new ≡ string_bytes out.old ++ interface_text interface.now) }
{
    let text = text_of(alloc, interface)?;
    out.push_str(text.as_str())?;
    Ok(())
}

/// Appends the canonical texts of interfaces, with commas between them, and the closing bracket.
fn push_interfaces(
    alloc: Global,
    out: &mut String,
    interfaces: &[&Interface],
) -> Result<(), OutOfMemory>
    ensures { OnOk result (string_bytes out.new ≡ string_bytes out.old ++ printed_elements (elements_of (map (λ i. interface_value i.now) interfaces.now))) }
{
    for (position, interface) in interfaces.iter().enumerate() {
        push_comma(out, position)?;
        push_interface(alloc, out, interface)?;
    }
    out.push_str("]")?;
    Ok(())
}

/// The canonical text of a set of interfaces: that of its canonical tree, and a newline. Only one interface at a time has
/// its tree in memory. Fails only for want of memory.
pub fn canon(alloc: Global, interfaces: &[Interface]) -> Result<List<u8>, OutOfMemory>
    ensures { IfOk result (λ bytes. bytes ≡ set_text interfaces.now) }
{
    let list = in_order(alloc, interfaces)?;
    let mut out = String::new(alloc);
    out.push_str("[")?;
    push_interfaces(alloc, &mut out, list.as_slice())?;
    out.push_str("\n")?;
    Ok(List::from_vec(out.into_bytes()))
}
