//! The interfaces that a judgement looks at, by their numbers.

ghost use Rattle.std.specs.Prelude.{◌≡◌, ◌↔◌, true, map, None, IfOk};
ghost use Rattle.std.specs.Option.{is_some};
ghost use Rattle.std.specs.List.{filter_map, AllByRecursion, list_any};
ghost use Rattle.dtdl_terms.specs.Sets.{interface_at};
ghost use Rattle.extend_resolve.specs.SetRules.{together};
ghost use Rattle.extend_resolve.specs.Machinery.Numbers.{kept_at};
ghost use Rattle.extend_resolve.specs.Machinery.Gathering.{component_id};
ghost use Rattle.extend_resolve.specs.Machinery.Worlds.{IsWorld};

use crate::gathering::gather;
use dt_base::names::Dtmi;
use dt_base::{List, OutOfMemory};
use dtdl_terms::{ContentKind, Interface, ModelSet, Uploaded};
use std::alloc::Global;
use std::collections::BTreeMap;

/// The interfaces that a judgement looks at, each with its number: the new ones in their order, and then those of the
/// old set that they lead to.
#[derive(Drop)]
pub struct World<'a> {
    pub nodes: Vec<&'a Interface>,
    /// The number of the first interface with each identifier.
    pub numbers: BTreeMap<Dtmi, usize>,
    /// The numbers of the parents of each that are there.
    pub links: Vec<List<usize>>,
    /// Whether each declares a component.
    pub composed: Vec<bool>,
}

impl<'a> World<'a> {
    /// The world of new interfaces beside a set.
    pub fn new(
        alloc: Global,
        set: &'a ModelSet,
        new: &'a [Uploaded],
    ) -> Result<World<'a>, OutOfMemory>
        requires apart { AllByRecursion (λ u. interface_at u.interface.id set.now ≡ None) new.now }
        ensures { IfOk result (λ w. IsWorld (together set.now new.now) (map (λ u. u.interface) new.now) (map (λ n. n.now) w.nodes.items) w.numbers.entries w.links.items w.composed.items) }
    {
        let mut numbers = BTreeMap::new(alloc);
        let nodes = gather(alloc, set, new, &mut numbers)?;
        let links = all_links_of(alloc, nodes.as_slice(), &numbers)?;
        let composed = all_composed_of(alloc, nodes.as_slice())?;
        Ok(World {
            nodes,
            numbers,
            links,
            composed,
        })
    }

    /// The number of the interface that stands for an identifier.
    pub fn number(&self, id: &Dtmi) -> Option<usize>
        ensures { result ≡ kept_at id.now self.now.numbers.entries }
    {
        match self.numbers.get(id) {
            Some(number) => Some(*number),
            None => None,
        }
    }
}

/// The links of each interface.
fn all_links_of(
    alloc: Global,
    nodes: &[&Interface],
    numbers: &BTreeMap<Dtmi, usize>,
) -> Result<Vec<List<usize>>, OutOfMemory>
    ensures { IfOk result (λ links. links.items ≡ map (λ n. filter_map (λ p. kept_at p numbers.now.entries) n.now.parents) nodes.now) }
{
    let mut links = Vec::new(alloc);
    'nodes: for node in nodes {
        links.push(links_of(alloc, node, numbers)?)?;
    }
    Ok(links)
}

/// The numbers of the parents that are there.
fn links_of(
    alloc: Global,
    node: &Interface,
    numbers: &BTreeMap<Dtmi, usize>,
) -> Result<List<usize>, OutOfMemory>
    ensures { IfOk result (λ links. links ≡ filter_map (λ p. kept_at p numbers.now.entries) node.now.parents) }
{
    let mut links = Vec::new(alloc);
    'parents: for parent in node.parents.as_slice() {
        if let Some(number) = numbers.get(parent) {
            links.push(*number)?;
        }
    }
    Ok(List::from_vec(links))
}

/// Whether each interface declares a component.
fn all_composed_of(alloc: Global, nodes: &[&Interface]) -> Result<Vec<bool>, OutOfMemory>
    ensures { IfOk result (λ composed. composed.items ≡ map (λ n. list_any (λ c. is_some (component_id c)) n.now.contents) nodes.now) }
{
    let mut composed = Vec::with_capacity(alloc, nodes.len())?;
    'nodes: for node in nodes {
        composed.push(declares_component(node))?;
    }
    Ok(composed)
}

/// Whether an interface declares a component.
fn declares_component(node: &Interface) -> bool
    ensures { result ≡ list_any (λ c. is_some (component_id c)) node.now.contents }
{
    'contents: for content in node.contents.as_slice() {
        if let ContentKind::Component { .. } = &content.kind {
            return true;
        }
    }
    false
}
