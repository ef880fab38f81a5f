//! The interfaces that new ones lead to.

ghost use Rattle.std.specs.Prelude.{◌≡◌, ◌∷◌, [], ◌++◌, map, IfOk, OnOk, length};
ghost use Rattle.std.specs.Option.{option_copied, option_or};
ghost use Rattle.dt_base.specs.names.Grammar.{Identifier};
ghost use Rattle.extend_resolve.specs.Machinery.Numbers.{kept_at, number_for};
ghost use Rattle.extend_resolve.specs.Machinery.Gathering.{component_id, component_ids, with_id, with_ids, with_components, AreNumbered, IsGathered};

use dt_base::OutOfMemory;
use dt_base::names::Dtmi;
use dtdl_terms::{Content, ContentKind, Interface, ModelSet, Uploaded};
use std::alloc::Global;
use std::collections::BTreeMap;

/// The new interfaces, and then those of the set that they lead to by parents and components, and these by parents. The
/// number of the first with each identifier is kept.
pub fn gather<'a>(
    alloc: Global,
    set: &'a ModelSet,
    new: &'a [Uploaded],
    numbers: &mut BTreeMap<Dtmi, usize>,
) -> Result<Vec<&'a Interface>, OutOfMemory>
    requires empty { numbers.old.entries ≡ [] }
    ensures gathered { IfOk result (λ nodes. IsGathered set.now (map (λ u. u.interface) new.now) (map (λ n. n.now) nodes.items) (length nodes.items)) }
    ensures numbered { IfOk result (λ nodes. AreNumbered numbers.new.entries (map (λ n. n.now) nodes.items)) }
{
    let mut nodes = Vec::new(alloc);
    put_new(alloc, new, &mut nodes, numbers)?;
    add_all_components(alloc, set, new, &mut nodes, numbers)?;
    let mut at = 0;
    'open: while at < nodes.len() {
        let node = nodes[at];
        add_parents(alloc, set, node, &mut nodes, numbers)?;
        at += 1;
    }
    Ok(nodes)
}

/// Puts the new interfaces.
fn put_new<'a>(
    alloc: Global,
    new: &'a [Uploaded],
    nodes: &mut Vec<&'a Interface>,
    numbers: &mut BTreeMap<Dtmi, usize>,
) -> Result<(), OutOfMemory>
    requires numbered { AreNumbered numbers.old.entries (map (λ n. n.now) nodes.old.items) }
    ensures numbered { OnOk result (AreNumbered numbers.new.entries (map (λ n. n.now) nodes.new.items)) }
    ensures nodes { OnOk result (map (λ n. n.now) nodes.new.items ≡ map (λ n. n.now) nodes.old.items ++ map (λ u. u.interface) new.now) }
{
    'new: for uploaded in new {
        put(alloc, &uploaded.interface, nodes, numbers)?;
    }
    Ok(())
}

/// Adds the interfaces of the components of the new ones.
fn add_all_components<'a>(
    alloc: Global,
    set: &'a ModelSet,
    new: &[Uploaded],
    nodes: &mut Vec<&'a Interface>,
    numbers: &mut BTreeMap<Dtmi, usize>,
) -> Result<(), OutOfMemory>
    requires numbered { AreNumbered numbers.old.entries (map (λ n. n.now) nodes.old.items) }
    ensures numbered { OnOk result (AreNumbered numbers.new.entries (map (λ n. n.now) nodes.new.items)) }
    ensures nodes { OnOk result (map (λ n. n.now) nodes.new.items ≡ with_components set.now (map (λ n. n.now) nodes.old.items) (map (λ u. u.interface) new.now)) }
{
    'new: for uploaded in new {
        add_components(alloc, set, &uploaded.interface, nodes, numbers)?;
    }
    Ok(())
}

/// Adds the interfaces of the components of an interface.
fn add_components<'a>(
    alloc: Global,
    set: &'a ModelSet,
    node: &Interface,
    nodes: &mut Vec<&'a Interface>,
    numbers: &mut BTreeMap<Dtmi, usize>,
) -> Result<(), OutOfMemory>
    requires numbered { AreNumbered numbers.old.entries (map (λ n. n.now) nodes.old.items) }
    ensures numbered { OnOk result (AreNumbered numbers.new.entries (map (λ n. n.now) nodes.new.items)) }
    ensures nodes { OnOk result (map (λ n. n.now) nodes.new.items ≡ with_ids set.now (map (λ n. n.now) nodes.old.items) (component_ids node.now)) }
{
    'contents: for content in node.contents.as_slice() {
        if let Some(of) = component_of(content) {
            add(alloc, set, of, nodes, numbers)?;
        }
    }
    Ok(())
}

/// The interface that a component is of.
pub fn component_of(content: &Content) -> Option<&Dtmi>
    ensures { option_copied result ≡ component_id content.now }
{
    match &content.kind {
        ContentKind::Component { of } => Some(of),
        _ => None,
    }
}

/// Adds the parents of an interface.
fn add_parents<'a>(
    alloc: Global,
    set: &'a ModelSet,
    node: &Interface,
    nodes: &mut Vec<&'a Interface>,
    numbers: &mut BTreeMap<Dtmi, usize>,
) -> Result<(), OutOfMemory>
    requires numbered { AreNumbered numbers.old.entries (map (λ n. n.now) nodes.old.items) }
    ensures numbered { OnOk result (AreNumbered numbers.new.entries (map (λ n. n.now) nodes.new.items)) }
    ensures nodes { OnOk result (map (λ n. n.now) nodes.new.items ≡ with_ids set.now (map (λ n. n.now) nodes.old.items) node.now.parents) }
{
    'parents: for parent in node.parents.as_slice() {
        add(alloc, set, parent, nodes, numbers)?;
    }
    Ok(())
}

/// Adds the interface of the set with an identifier, where none with it is there.
fn add<'a>(
    alloc: Global,
    set: &'a ModelSet,
    id: &Dtmi,
    nodes: &mut Vec<&'a Interface>,
    numbers: &mut BTreeMap<Dtmi, usize>,
) -> Result<(), OutOfMemory>
    requires numbered { AreNumbered numbers.old.entries (map (λ n. n.now) nodes.old.items) }
    ensures numbered { OnOk result (AreNumbered numbers.new.entries (map (λ n. n.now) nodes.new.items)) }
    ensures nodes { OnOk result (map (λ n. n.now) nodes.new.items ≡ with_id set.now (map (λ n. n.now) nodes.old.items) id.now) }
{
    if numbers.contains_key(id) {
        return Ok(());
    }
    match set.get(id) {
        Some(interface) => put(alloc, interface, nodes, numbers),
        None => Ok(()),
    }
}

/// Puts an interface behind the others.
fn put<'a>(
    alloc: Global,
    node: &'a Interface,
    nodes: &mut Vec<&'a Interface>,
    numbers: &mut BTreeMap<Dtmi, usize>,
) -> Result<(), OutOfMemory>
    requires numbered { AreNumbered numbers.old.entries (map (λ n. n.now) nodes.old.items) }
    ensures numbered { OnOk result (AreNumbered numbers.new.entries (map (λ n. n.now) nodes.new.items)) }
    ensures nodes { OnOk result (map (λ n. n.now) nodes.new.items ≡ map (λ n. n.now) nodes.old.items ++ node.now ∷ []) }
{
    enter(alloc, numbers, &node.id, nodes.len())?;
    nodes.push(node)?;
    Ok(())
}

/// Gives an identifier a number, where it has none.
fn enter(
    alloc: Global,
    numbers: &mut BTreeMap<Dtmi, usize>,
    id: &Dtmi,
    number: usize,
) -> Result<(), OutOfMemory>
    ensures { OnOk result ((q : Identifier) → kept_at q numbers.new.entries ≡ option_or (kept_at q numbers.old.entries) (number_for id.now number q)) }
{
    let key = id.copy(alloc)?;
    numbers.entry(key)?.or_insert(number);
    Ok(())
}
