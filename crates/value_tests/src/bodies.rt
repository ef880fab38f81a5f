//! Twins and relationships that bodies without breach stand for, and their copies.

use crate::made::{both, id_of, name_of, no_texts, tree_of, tree_text, with};
use dt_base::names::Name;
use dt_base::{List, OutOfMemory};
use dtdl_terms::{
    Common, Content, ContentKind, PartOf, Primitive, Resolved, ResolvedContent, Schema,
};
use std::alloc::Global;
use std::test::Fail;
use twin_value::{Relationship, Twin, copy_rel, read_rel, read_twin};

const SITE: &str = "dtmi:demo:Site;1";

const TANK: &str = "dtmi:demo:Tank;1";

/// A content of this name and kind.
fn content(alloc: Global, name: Name, kind: ContentKind) -> Content {
    Content {
        name,
        common: Common {
            id: None,
            comment: None,
            description: no_texts(alloc),
            display_name: no_texts(alloc),
        },
        kind,
    }
}

/// A property with a schema.
fn property(alloc: Global, name: &str, schema: Primitive) -> Result<Content, OutOfMemory> {
    let name = name_of(alloc, name)?;
    let kind = ContentKind::Property {
        schema: Schema::Primitive(schema),
        semantic: None,
        unit: None,
        writable: false,
    };
    Ok(content(alloc, name, kind))
}

/// The component `tank`.
fn tank(alloc: Global) -> Result<Content, OutOfMemory> {
    let (name, of) = both(name_of(alloc, "tank"), id_of(alloc, TANK))?;
    Ok(content(alloc, name, ContentKind::Component { of }))
}

/// The relationship `feeds`, which has a property.
fn feeds(alloc: Global) -> Result<Content, OutOfMemory> {
    let flow = property(alloc, "flow", Primitive::Double);
    let properties = with(Ok(List::new(alloc)), flow);
    let (name, properties) = both(name_of(alloc, "feeds"), properties)?;
    let kind = ContentKind::Relationship {
        target: None,
        properties,
        max: None,
        writable: false,
    };
    Ok(content(alloc, name, kind))
}

/// A content that an interface declares.
fn declared(
    alloc: Global,
    from: &str,
    content: Result<Content, OutOfMemory>,
) -> Result<ResolvedContent, OutOfMemory> {
    let (from, content) = both(id_of(alloc, from), content)?;
    Ok(ResolvedContent { from, content })
}

/// The contents of a site, in the order of their names.
fn contents(alloc: Global) -> Result<List<ResolvedContent>, OutOfMemory> {
    let active = property(alloc, "active", Primitive::Boolean);
    let level = property(alloc, "level", Primitive::Integer);
    let contents = with(Ok(List::new(alloc)), declared(alloc, SITE, active));
    let contents = with(contents, declared(alloc, SITE, feeds(alloc)));
    let contents = with(contents, declared(alloc, SITE, level));
    with(contents, declared(alloc, SITE, tank(alloc)))
}

/// What the component of a site consists of.
fn part(alloc: Global) -> Result<PartOf, OutOfMemory> {
    let full = property(alloc, "full", Primitive::Boolean);
    let contents = with(Ok(List::new(alloc)), declared(alloc, TANK, full));
    let (of, contents) = both(id_of(alloc, TANK), contents)?;
    Ok(PartOf { of, contents })
}

/// A site: two properties, a relationship and a component, all of primitive schemas.
fn site(alloc: Global) -> Result<Resolved, OutOfMemory> {
    let parts = with(Ok(List::new(alloc)), part(alloc));
    let (contents, parts) = both(contents(alloc), parts)?;
    Ok(Resolved {
        contents,
        ancestors: List::new(alloc),
        named: List::new(alloc),
        parts,
    })
}

/// The twin `t1` for which a body stands.
fn twin_of(alloc: Global, body: &str) -> Result<Twin, Fail> {
    let (model, tree) = both(site(alloc), tree_of(alloc, body))?;
    let twin = read_twin(alloc, "t1", &tree, &model);
    drop((model, tree));
    Ok(twin?)
}

/// What a twin says: its identifier, its model, the values of its properties, and its components.
fn twin_said(alloc: Global, twin: &Twin) -> Result<String, Fail> {
    let values = tree_text(alloc, &twin.values)?;
    let parts = tree_text(alloc, &twin.parts)?;
    let (id, model) = (twin.id.as_str(), twin.model.as_str());
    let (values, parts) = (values.as_str(), parts.as_str());
    Ok(format!(in alloc; "{id} {model} {values} {parts}")?)
}

/// The same of the twin for which a body stands.
fn read_said(alloc: Global, body: &str) -> Result<String, Fail> {
    let twin = twin_of(alloc, body)?;
    let said = twin_said(alloc, &twin);
    drop(twin);
    said
}

/// The same of the copy of that twin, which is let go before its copy is looked at.
fn copy_said(alloc: Global, body: &str) -> Result<String, Fail> {
    let twin = twin_of(alloc, body)?;
    let copy = twin.copy(alloc);
    drop(twin);
    let copy = copy?;
    let said = twin_said(alloc, &copy);
    drop(copy);
    said
}

/// The bodies of twins, and what the twins say.
const TWINS: [(&str, &str); 4] = [
    (
        r#"{"$metadata":{"$model":"dtmi:demo:Site;1"}}"#,
        "t1 dtmi:demo:Site;1 {} {}",
    ),
    (
        r#"{"level":8.0,"$etag":"e","active":true,"$metadata":{"$model":"dtmi:demo:Site;1","x":1},"$dtId":"t1"}"#,
        r#"t1 dtmi:demo:Site;1 {"active":true,"level":8} {}"#,
    ),
    (
        r#"{"tank":{"full":false,"$metadata":{"$model":2}},"$metadata":{"$model":"dtmi:demo:Site;1"},"level":-1e3}"#,
        r#"t1 dtmi:demo:Site;1 {"level":-1000} {"tank":{"full":false}}"#,
    ),
    (
        r#"{"tank":{},"$metadata":{"$model":"dtmi:demo:Site;2"}}"#,
        r#"t1 dtmi:demo:Site;2 {} {"tank":{}}"#,
    ),
];

#[test]
fn bodies_stand_for_twins(rt: HostRuntime) -> Result<(), Fail> {
    for (body, want) in TWINS {
        assert_eq!(rt; read_said(rt.alloc(), body)?.as_str(), want, "{body}");
    }
    Ok(())
}

#[test]
fn copies_twins(rt: HostRuntime) -> Result<(), Fail> {
    for (body, want) in TWINS {
        assert_eq!(rt; copy_said(rt.alloc(), body)?.as_str(), want, "{body}");
    }
    Ok(())
}

/// The relationship `r1` out of `t1` for which a body stands.
fn link_of(alloc: Global, body: &str) -> Result<Relationship, Fail> {
    let (model, tree) = both(site(alloc), tree_of(alloc, body))?;
    let link = read_rel(alloc, "t1", "r1", &tree, &model);
    drop((model, tree));
    Ok(link?)
}

/// What a relationship says: its source and identifier, its name, its target, and the values of its properties.
fn link_said(alloc: Global, link: &Relationship) -> Result<String, Fail> {
    let values = tree_text(alloc, &link.payload)?;
    let (source, id) = (link.source.as_str(), link.id.as_str());
    let (name, target) = (link.name.as_str(), link.target.as_str());
    Ok(format!(in alloc; "{source} {id} {name} {target} {}", values.as_str())?)
}

/// The same of the relationship for which a body stands.
fn read_link_said(alloc: Global, body: &str) -> Result<String, Fail> {
    let link = link_of(alloc, body)?;
    let said = link_said(alloc, &link);
    drop(link);
    said
}

/// The same of the copy of that relationship, which is let go before its copy is looked at.
fn link_copy_said(alloc: Global, body: &str) -> Result<String, Fail> {
    let link = link_of(alloc, body)?;
    let copy = copy_rel(alloc, &link);
    drop(link);
    let copy = copy?;
    let said = link_said(alloc, &copy);
    drop(copy);
    said
}

/// The bodies of relationships, and what the relationships say.
const LINKS: [(&str, &str); 2] = [
    (
        r#"{"$relationshipName":"feeds","$targetId":"t2"}"#,
        "t1 r1 feeds t2 {}",
    ),
    (
        r#"{"$targetId":"t1","flow":21.50,"$sourceId":"t1","$etag":1,"$relationshipName":"feeds","$relationshipId":"r1","$metadata":[]}"#,
        r#"t1 r1 feeds t1 {"flow":21.5}"#,
    ),
];

#[test]
fn bodies_stand_for_relationships(rt: HostRuntime) -> Result<(), Fail> {
    for (body, want) in LINKS {
        assert_eq!(rt; read_link_said(rt.alloc(), body)?.as_str(), want, "{body}");
    }
    Ok(())
}

#[test]
fn copies_relationships(rt: HostRuntime) -> Result<(), Fail> {
    for (body, want) in LINKS {
        assert_eq!(rt; link_copy_said(rt.alloc(), body)?.as_str(), want, "{body}");
    }
    Ok(())
}
