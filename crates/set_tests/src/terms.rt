//! Sets of interfaces, and the names of limits, through the public calls of `dtdl_terms`.

use dt_base::List;
use dt_base::names::Dtmi;
use dtdl_terms::{Interface, Limit, Localized, ModelSet};
use std::alloc::Global;
use std::test::Fail;

fn absent(alloc: Global) -> Localized {
    Localized {
        entries: List::new(alloc),
    }
}

fn interface(alloc: Global) -> Result<Interface, Fail> {
    let id = Dtmi::read(alloc, "dtmi:com:example:Thermostat;1")?;
    Ok(Interface {
        id,
        comment: None,
        description: absent(alloc),
        display_name: absent(alloc),
        parents: List::new(alloc),
        contents: List::new(alloc),
        schemas: List::new(alloc),
    })
}

// an interface that is there is not put again
fn put(set: &mut ModelSet, interface: Interface) -> Result<(), Fail> {
    if set.get(&interface.id).is_none() {
        set.insert(interface)?;
    }
    Ok(())
}

/// A set of three interfaces.
fn set_of_three(alloc: Global) -> Result<ModelSet, Fail> {
    let mut set = ModelSet::new(alloc);
    for id in ["dtmi:b;9", "dtmi:a;1", "dtmi:b;10"] {
        let mut next = interface(alloc)?;
        next.id = Dtmi::read(alloc, id)?;
        put(&mut set, next)?;
    }
    Ok(set)
}

/// The identifiers in a set, in its order, each with a space behind it.
fn ids_in(alloc: Global, set: &ModelSet) -> Result<String, Fail> {
    let mut seen = String::new(alloc);
    let mut at = set.after(None);
    for _ in 0..3 {
        let Some(interface) = at else { break };
        seen.push_str(interface.id.as_str())?;
        seen.push(' ')?;
        at = set.after(Some(&interface.id));
    }
    Ok(seen)
}

/// The version of an interface that a set of three lets go, where the others stay.
fn removed_from(set: &mut ModelSet, id: &Dtmi) -> Option<u32> {
    let removed = set.remove(id);
    let version = removed.as_ref().map(|interface| interface.id.version());
    drop(removed);
    if set.get(id).is_some() || set.len() != 2 {
        return None;
    }
    version
}

/// The identifiers in a set of three, and the version of the one that it then lets go.
fn kept(alloc: Global) -> Result<String, Fail> {
    let id = Dtmi::read(alloc, "dtmi:b;10")?;
    let mut set = set_of_three(alloc)?;
    let seen = ids_in(alloc, &set);
    let version = removed_from(&mut set, &id);
    drop((set, id));
    let version = version.unwrap_or(0);
    Ok(format!(in alloc; "{}{version}", seen?.as_str())?)
}

#[test]
fn keeps_a_set(rt: HostRuntime) -> Result<(), Fail> {
    assert_eq!(rt;
        kept(rt.alloc())?.as_str(),
        "dtmi:a;1 dtmi:b;10 dtmi:b;9 10"
    );
    Ok(())
}

#[test]
fn limits_have_their_names(rt: HostRuntime) -> Result<(), Fail> {
    let names = [
        (Limit::Models, "models"),
        (Limit::ModelBytes, "modelBytes"),
        (Limit::ResolvedBytes, "resolvedBytes"),
        (Limit::TwinBytes, "twinBytes"),
        (Limit::RelationshipBytes, "relationshipBytes"),
        (Limit::Twins, "twins"),
        (Limit::Relationships, "relationships"),
        (Limit::GraphBytes, "graphBytes"),
    ];
    for (limit, name) in names {
        assert_eq!(rt; limit.text(), name);
    }
    Ok(())
}
