//! What an interface has with all that it inherits and with what its components consist of.

ghost use Rattle.std.specs.Prelude.{◌≡◌, ◌↔◌, ◌⊎◌, Some, Contains, map, IsSome, IfOk, OnOk};
ghost use Rattle.std.specs.Option.{option_copied};
ghost use Rattle.std.specs.Ordering.{nat_cmp};
ghost use Rattle.std.specs.Cmp.Lexicographic.{slice_cmp};
ghost use Rattle.std.specs.List.{AllByRecursion, AllZip};
ghost use Rattle.std.specs.List.Sorted.{IsStrictlySortedBy};
ghost use Rattle.dtdl_terms.specs.TermViews.{kind_term};
ghost use Rattle.dtdl_terms.specs.Distinct.{HasDeclaration};
ghost use Rattle.dtdl_terms.specs.Sets.{InOrder, interface_at};
ghost use Rattle.dtdl_terms.specs.declared.interface.Interface.{Interface};
ghost use Rattle.dtdl_terms.specs.declared.resolved.ResolvedContent.{ResolvedContent};
ghost use Rattle.extend_resolve.specs.Chains.{IsAncestor};
ghost use Rattle.extend_resolve.specs.Breaches.{BreaksNoRule};
ghost use Rattle.model_life.specs.resolution.Resolving.{HasPart, IsResolved};
ghost use Rattle.model_life.specs.resolution.Machinery.Families.{IsThere, IsFamily, GrowsFamily, HasShortChains, IsDeclaredIn, AreOne, IsPartBy, IsPartOf, kind_id, part_for, schemas_of};

use crate::resolution::contents::contents_of;
use crate::resolution::found::Found;
use dt_base::names::Dtmi;
use dt_base::{List, OutOfMemory};
use dtdl_terms::{
    Content, ContentKind, Interface, ModelSet, NamedIn, PartOf, Resolved, ResolvedContent, Schema,
};
use extend_resolve::MOST_STEPS;
use std::alloc::Global;

/// What an interface of a set that breaks no rule has with all that it inherits and with what its components consist of:
/// contents in the order of their names, the rest in the order of the identifiers. Fails only for want of memory.
pub fn resolve(alloc: Global, set: &ModelSet, id: &Dtmi) -> Result<Resolved, OutOfMemory>
    requires sound { BreaksNoRule set.now }
    requires declared { AllByRecursion HasDeclaration set.now }
    requires there { IsSome (interface_at id.now set.now) }
    ensures { IfOk result (λ resolved. (i : Interface) → interface_at id.now set.now ≡ Some i → IsResolved set.now i resolved) }
{
    let interface = set.get(id).unwrap();
    let mut found = ancestors_of(alloc, set, interface)?;
    let Ok(ancestors) = found.list(alloc) else {
        drop(found);
        return Err(OutOfMemory);
    };
    let Ok(parts) = parts(alloc, set, ancestors.as_slice()) else {
        drop((found, ancestors));
        return Err(OutOfMemory);
    };
    let Ok(()) = add_all_ancestors(set, parts.as_slice(), &mut found) else {
        drop((found, ancestors, parts));
        return Err(OutOfMemory);
    };
    let Ok(sources) = found.list(alloc) else {
        drop((found, ancestors, parts));
        return Err(OutOfMemory);
    };
    let resolved = resolved_of(
        alloc,
        set,
        ancestors.as_slice(),
        sources.as_slice(),
        parts.as_slice(),
    );
    drop((found, ancestors, sources, parts));
    Ok(resolved?)
}

/// What an interface has whose ancestors these are, with the schemas of the sources and the contents of the parts.
fn resolved_of(
    alloc: Global,
    set: &ModelSet,
    ancestors: &[&Interface],
    sources: &[&Interface],
    parts: &[&Interface],
) -> Result<Resolved, OutOfMemory>
    requires sound { BreaksNoRule set.now }
    requires declared { AllByRecursion HasDeclaration set.now }
    requires one { AreOne (IsDeclaredIn (map (λ i. i.now) ancestors.now)) }
    requires there { (q : Interface) → Contains (map (λ i. i.now) parts.now) q → IsThere set.now q }
    ensures each { IfOk result (λ r. (c : ResolvedContent) → Contains r.contents c ↔ IsDeclaredIn (map (λ i. i.now) ancestors.now) c) }
    ensures sorted { IfOk result (λ r. IsStrictlySortedBy (slice_cmp nat_cmp) (map (λ c. c.content.name) r.contents)) }
    ensures ancestors { IfOk result (λ r. r.ancestors ≡ map (λ i. i.now.id) ancestors.now) }
    ensures named { IfOk result (λ r. r.named ≡ map (λ i. schemas_of i.now) sources.now) }
    ensures parts { IfOk result (λ r. AllZip (IsPartOf set.now) (map (λ i. i.now) parts.now) r.parts) }
{
    let ids = copy_ids(alloc, ancestors)?;
    let Ok(contents) = contents_of(alloc, ancestors) else {
        drop(ids);
        return Err(OutOfMemory);
    };
    let Ok(named) = copy_named(alloc, sources) else {
        drop((ids, contents));
        return Err(OutOfMemory);
    };
    let Ok(parts) = copy_parts(alloc, set, parts) else {
        drop((ids, contents, named));
        return Err(OutOfMemory);
    };
    Ok(Resolved {
        contents,
        ancestors: ids,
        named,
        parts,
    })
}

/// The ancestors of an interface of a set that breaks no rule, itself included, in the order of their identifiers. Fails
/// only for want of memory.
pub fn ancestors<'a>(
    alloc: Global,
    set: &'a ModelSet,
    interface: &'a Interface,
) -> Result<Vec<&'a Interface>, OutOfMemory>
    requires sound { BreaksNoRule set.now }
    requires there { interface_at interface.now.id set.now ≡ Some interface.now }
    ensures each { IfOk result (λ list. (a : Interface) → Contains (map (λ x. x.now) list.items) a ↔ IsAncestor set.now interface.now a) }
    ensures ordered { IfOk result (λ list. InOrder (map (λ x. x.now) list.items)) }
{
    let found = ancestors_of(alloc, set, interface)?;
    let list = found.list(alloc);
    drop(found);
    list
}

/// The ancestors of an interface, itself included.
fn ancestors_of<'a>(
    alloc: Global,
    set: &'a ModelSet,
    interface: &'a Interface,
) -> Result<Found<'a>, OutOfMemory>
    requires sound { BreaksNoRule set.now }
    requires there { IsThere set.now interface.now }
    ensures family { IfOk result (IsFamily set.now) }
    ensures each { IfOk result (λ found. (a : Interface) → IsThere found a ↔ IsAncestor set.now interface.now a) }
{
    let mut found = Found::new(alloc);
    add_ancestors(set, interface, &mut found, MOST_STEPS)?;
    Ok(found)
}

/// Adds an interface and its ancestors to those that are found, which have their parents with them. Each is added behind
/// its parents, so that none is looked at twice.
fn add_ancestors<'a>(
    set: &'a ModelSet,
    interface: &'a Interface,
    found: &mut Found<'a>,
    steps: u32,
) -> Result<(), OutOfMemory>
    requires there { IsThere set.now interface.now }
    requires short { HasShortChains set.now steps interface.now }
    requires family { IsFamily set.now found.old }
    ensures grows { OnOk result (GrowsFamily set.now interface.now found.old found.new) }
    ensures here { OnOk result (IsThere found.new interface.now) }
{
    if found.has(&interface.id) {
        return Ok(());
    }
    'parents: for parent in interface.parents.as_slice() {
        if let Some(parent) = set.get(parent) {
            add_ancestors(set, parent, found, steps - 1)?;
        }
    }
    found.add(interface)?;
    Ok(())
}

/// Adds several interfaces of the set and their ancestors.
fn add_all_ancestors<'a>(
    set: &'a ModelSet,
    interfaces: &[&'a Interface],
    found: &mut Found<'a>,
) -> Result<(), OutOfMemory>
    requires sound { BreaksNoRule set.now }
    requires there { (q : Interface) → Contains (map (λ i. i.now) interfaces.now) q → IsThere set.now q }
    requires family { IsFamily set.now found.old }
    ensures { OnOk result ((a : Interface) → IsThere found.new a ↔ (IsThere found.old a ⊎ ((q : Interface) × Contains (map (λ i. i.now) interfaces.now) q × IsAncestor set.now q a))) }
{
    'interfaces: for interface in interfaces {
        add_ancestors(set, interface, found, MOST_STEPS)?;
    }
    Ok(())
}

/// The interfaces of the components that interfaces declare, each once, in the order of their identifiers. Where these are
/// the ancestors of an interface, they are the interfaces of the components that it has. Fails only for want of memory.
pub fn parts<'a>(
    alloc: Global,
    set: &'a ModelSet,
    interfaces: &[&Interface],
) -> Result<Vec<&'a Interface>, OutOfMemory>
    ensures each { IfOk result (λ parts. (i : Interface) → ((a : Interface) → Contains (map (λ x. x.now) interfaces.now) a ↔ IsAncestor set.now i a) → (q : Interface) → Contains (map (λ x. x.now) parts.items) q ↔ HasPart set.now i q) }
    ensures ordered { IfOk result (λ parts. InOrder (map (λ x. x.now) parts.items)) }
{
    let mut found = Found::new(alloc);
    'interfaces: for interface in interfaces {
        add_parts(set, interface, &mut found)?;
    }
    found.list(alloc)
}

/// Adds the interfaces of the components that an interface declares.
fn add_parts<'a>(
    set: &'a ModelSet,
    interface: &Interface,
    found: &mut Found<'a>,
) -> Result<(), OutOfMemory>
    requires { (q : Interface) → IsThere found.old q → IsThere set.now q }
    ensures { OnOk result ((q : Interface) → IsThere found.new q ↔ (IsThere found.old q ⊎ IsPartBy set.now interface.now.contents q)) }
{
    'contents: for content in interface.contents.as_slice() {
        if let Some(part) = part_for(set, content) {
            found.add(part)?;
        }
    }
    Ok(())
}

/// The interface of a component.
fn part_for<'a>(set: &'a ModelSet, content: &Content) -> Option<&'a Interface>
    ensures { option_copied result ≡ part_for set.now content.now }
{
    match component_id(content) {
        Some(id) => set.get(id),
        None => None,
    }
}

/// What a component is of, where it is one.
fn component_id(content: &Content) -> Option<&Dtmi>
    ensures { option_copied result ≡ kind_id (kind_term content.now.kind) }
{
    match &content.kind {
        ContentKind::Component { of } => Some(of),
        _ => None,
    }
}

/// The identifiers of interfaces.
fn copy_ids(alloc: Global, interfaces: &[&Interface]) -> Result<List<Dtmi>, OutOfMemory>
    ensures { IfOk result (λ copies. copies ≡ map (λ i. i.now.id) interfaces.now) }
{
    let mut copies = Vec::with_capacity(alloc, interfaces.len())?;
    'interfaces: for interface in interfaces {
        copies.push(interface.id.copy(alloc)?)?;
    }
    Ok(List::from_vec(copies))
}

/// The schemas that interfaces declare.
fn copy_named(alloc: Global, interfaces: &[&Interface]) -> Result<List<NamedIn>, OutOfMemory>
    ensures { IfOk result (λ copies. copies ≡ map (λ i. schemas_of i.now) interfaces.now) }
{
    let mut copies = Vec::with_capacity(alloc, interfaces.len())?;
    'interfaces: for interface in interfaces {
        copies.push(named_in(alloc, interface)?)?;
    }
    Ok(List::from_vec(copies))
}

/// The schemas that an interface declares.
fn named_in(alloc: Global, interface: &Interface) -> Result<NamedIn, OutOfMemory>
    ensures { IfOk result (λ named. named ≡ schemas_of interface.now) }
{
    let of = interface.id.copy(alloc)?;
    let Ok(schemas) = copy_schemas(alloc, interface.schemas.as_slice()) else {
        drop(of);
        return Err(OutOfMemory);
    };
    Ok(NamedIn { of, schemas })
}

/// Equal schemas in memory of their own.
fn copy_schemas(alloc: Global, schemas: &[Schema]) -> Result<List<Schema>, OutOfMemory>
    ensures { IfOk result (λ copies. copies ≡ schemas.now) }
{
    let mut copies = Vec::with_capacity(alloc, schemas.len())?;
    'schemas: for schema in schemas {
        copies.push(schema.copy(alloc)?)?;
    }
    Ok(List::from_vec(copies))
}

/// Interfaces with the contents that they and their ancestors declare.
fn copy_parts(
    alloc: Global,
    set: &ModelSet,
    parts: &[&Interface],
) -> Result<List<PartOf>, OutOfMemory>
    requires sound { BreaksNoRule set.now }
    requires declared { AllByRecursion HasDeclaration set.now }
    requires there { (q : Interface) → Contains (map (λ i. i.now) parts.now) q → IsThere set.now q }
    ensures { IfOk result (λ copies. AllZip (IsPartOf set.now) (map (λ i. i.now) parts.now) copies) }
{
    let mut copies = Vec::with_capacity(alloc, parts.len())?;
    'parts: for part in parts {
        copies.push(part_of(alloc, set, part)?)?;
    }
    Ok(List::from_vec(copies))
}

/// An interface with the contents that it and its ancestors declare.
fn part_of(alloc: Global, set: &ModelSet, part: &Interface) -> Result<PartOf, OutOfMemory>
    requires sound { BreaksNoRule set.now }
    requires declared { AllByRecursion HasDeclaration set.now }
    requires there { IsThere set.now part.now }
    ensures { IfOk result (IsPartOf set.now part.now) }
{
    let of = part.id.copy(alloc)?;
    let Ok(ancestors) = ancestors(alloc, set, part) else {
        drop(of);
        return Err(OutOfMemory);
    };
    let contents = contents_of(alloc, ancestors.as_slice());
    drop(ancestors);
    let Ok(contents) = contents else {
        drop(of);
        return Err(OutOfMemory);
    };
    Ok(PartOf { of, contents })
}
