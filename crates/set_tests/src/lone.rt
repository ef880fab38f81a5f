//! A set of one interface that names no other, of which its proofs know that it breaks no rule.

ghost use Rattle.std.specs.Prelude.{◌≡◌, [], ◌∷◌, List, IfOk};
ghost use Rattle.set_tests.specs.Lone.{IsLone};

use dt_base::List;
use dt_base::names::Dtmi;
use dtdl_terms::{Interface, Localized, ModelSet};
use extend_resolve::is_a;
use model_life::resolution::{Resolutions, ancestors, parts, resolve};
use resolved_table::Table;
use std::alloc::Global;
use std::test::Fail;

fn absent(alloc: Global) -> Localized
    ensures { result.entries ≡ [] }
{
    Localized {
        entries: List::new(alloc),
    }
}

fn lone(alloc: Global, id: &Dtmi) -> Result<ModelSet, Fail>
    ensures { IfOk result (λ set. IsLone set id.now) }
{
    let mut set = ModelSet::new(alloc);
    set.insert(Interface {
        id: id.copy(alloc)?,
        comment: None,
        description: absent(alloc),
        display_name: absent(alloc),
        parents: List::new(alloc),
        contents: List::new(alloc),
        schemas: List::new(alloc),
    })?;
    Ok(set)
}

fn is_resolved(alloc: Global, set: &ModelSet, id: &Dtmi) -> Result<bool, Fail>
    requires { IsLone set.now id.now }
{
    let resolved = resolve(alloc, set, id)?;
    let is_right = resolved.ancestors.len() == 1
        && resolved.named.len() == 1
        && resolved.contents.is_empty()
        && resolved.parts.is_empty();
    drop(resolved);
    Ok(is_right)
}

fn is_found(alloc: Global, set: &ModelSet, id: &Dtmi) -> Result<bool, Fail>
    requires { IsLone set.now id.now }
{
    let Some(interface) = set.get(id) else {
        return Ok(false);
    };
    let ancestors = ancestors(alloc, set, interface)?;
    let parts = parts(alloc, set, ancestors.as_slice())?;
    Ok(ancestors.len() == 1 && parts.is_empty())
}

fn is_held(alloc: Global, set: &ModelSet, id: &Dtmi) -> Result<bool, Fail>
    requires { IsLone set.now id.now }
{
    let mut held = Resolutions::new(alloc);
    held.ready(set, id)?;
    held.ready(set, id)?;
    let count = held.get(id).map(|resolved| resolved.ancestors.len());
    held.remove(id);
    let is_gone = held.get(id).is_none();
    drop(held);
    Ok(count == Some(1) && is_gone)
}

fn is_kept(alloc: Global, set: &ModelSet, id: &Dtmi) -> Result<bool, Fail>
    requires { IsLone set.now id.now }
{
    let mut ids = List::new(alloc);
    ids.push(id.copy(alloc)?)?;
    let mut table = Table::new(alloc);
    table.add(set, ids.as_slice())?;
    let count = table.get(id).map(|resolved| resolved.ancestors.len());
    table.remove(id);
    let is_gone = table.get(id).is_none();
    drop((table, ids));
    Ok(count == Some(1) && is_gone)
}

/// The first of the calls that answers otherwise than it should; nothing where all are right.
fn amiss_of(alloc: Global, set: &ModelSet, id: &Dtmi) -> Result<&'static str, Fail>
    requires { IsLone set.now id.now }
{
    if !is_a(set, id, id) {
        return Ok("is_a");
    }
    if !is_resolved(alloc, set, id)? {
        return Ok("resolve");
    }
    if !is_found(alloc, set, id)? {
        return Ok("ancestors, parts");
    }
    if !is_held(alloc, set, id)? {
        return Ok("Resolutions");
    }
    if !is_kept(alloc, set, id)? {
        return Ok("Table");
    }
    Ok("")
}

fn amiss(alloc: Global) -> Result<&'static str, Fail> {
    let id = Dtmi::read(alloc, "dtmi:a;1")?;
    let set = lone(alloc, &id)?;
    let amiss = amiss_of(alloc, &set, &id);
    drop((set, id));
    amiss
}

#[test]
fn answers_of_a_lone_interface(rt: HostRuntime) -> Result<(), Fail> {
    assert_eq!(rt; amiss(rt.alloc())?, "");
    Ok(())
}
