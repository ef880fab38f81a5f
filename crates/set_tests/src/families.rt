//! A set of interfaces with parents and a component: what each has with all that it inherits, and who is whose ancestor.

ghost use Rattle.std.specs.Prelude.{◌≡◌, [], IfOk, map};
ghost use Rattle.std.specs.List.{AllByRecursion};
ghost use Rattle.dtdl_terms.specs.Distinct.{HasDeclaration};
ghost use Rattle.model_life.specs.Models.{interfaces_of};
ghost use Rattle.resolved_table.specs.Tables.{ResolvesOthers};

use dt_base::names::Dtmi;
use dt_base::{List, OutOfMemory};
use dtdl_terms::{ContentKind, NamedIn, PartOf, Resolved, ResolvedContent, Uploaded};
use extend_resolve::is_a;
use json_read::read;
use model_life::Models;
use model_life::resolution::resolve;
use model_read::{have_declarations, read_interfaces};
use resolved_table::Table;
use std::alloc::{AllocError, Global};
use std::test::Fail;

/// A hall is a room, which is a place and has a lamp. No interface comes behind those that it names.
const DOCUMENT: &str =
    r#"[{"@context":"dtmi:dtdl:context;2","@id":"dtmi:hall;1","@type":"Interface","extends":["dtmi:room;1"],"contents":[{"@type":"Property","name":"Seats","schema":"integer"}]},{"@context":"dtmi:dtdl:context;2","@id":"dtmi:room;1","@type":"Interface","extends":"dtmi:place;1","contents":[{"@type":"Relationship","name":"leads","target":"dtmi:place;1"},{"@type":"Component","name":"lamp","schema":"dtmi:lamp;1"}]},{"@context":"dtmi:dtdl:context;2","@id":"dtmi:place;1","@type":"Interface","contents":[{"@type":"Property","name":"state","schema":"dtmi:state;1"},{"@type":"Telemetry","name":"heat","schema":"double"}],"schemas":[{"@id":"dtmi:state;1","@type":"Enum","valueSchema":"integer","enumValues":[{"name":"idle","enumValue":0}]}]},{"@context":"dtmi:dtdl:context;2","@id":"dtmi:lamp;1","@type":"Interface","contents":[{"@type":"Property","name":"on","schema":"boolean"},{"@type":"Command","name":"blink"}]}]"#;

/// The interfaces of the document.
fn uploads_of(alloc: Global) -> Result<List<Uploaded>, Fail>
    ensures { IfOk result (AllByRecursion (λ u. HasDeclaration u.interface)) }
{
    have_declarations();
    let tree = read(alloc, DOCUMENT.as_bytes())?;
    let read = read_interfaces(alloc, &tree, 1);
    drop(tree);
    let uploads = read?;
    Ok(uploads)
}

/// The identifiers of interfaces.
fn ids_of(alloc: Global, uploads: &[Uploaded]) -> Result<List<Dtmi>, OutOfMemory>
    ensures { IfOk result (λ ids. ids ≡ map (λ u. u.interface.id) uploads.now) }
{
    let mut ids = Vec::with_capacity(alloc, uploads.len())?;
    'uploads: for upload in uploads {
        ids.push(upload.interface.id.copy(alloc)?)?;
    }
    Ok(List::from_vec(ids))
}

/// The models of the document, and their identifiers.
fn family(alloc: Global) -> Result<(Models, List<Dtmi>), Fail>
    ensures { IfOk result (λ f. ResolvesOthers (interfaces_of f.0) f.1 []) }
{
    let uploads = uploads_of(alloc)?;
    let Ok(ids) = ids_of(alloc, uploads.as_slice()) else {
        drop(uploads);
        return Err(Fail::from("no memory for identifiers"));
    };
    let mut models = Models::new(alloc);
    match models.add(uploads) {
        Ok(()) => Ok((models, ids)),
        Err(end) => {
            drop((end, models, ids));
            Err(Fail::from("the models are refused"))
        }
    }
}

/// A table of these models, whose identifiers these are.
fn table_of(alloc: Global, models: &Models, ids: &[Dtmi]) -> Result<Table, OutOfMemory>
    requires { ResolvesOthers (interfaces_of models.now) ids.now [] }
{
    models.sound();
    let mut table = Table::new(alloc);
    match table.add(models.set(), ids) {
        Ok(()) => Ok(table),
        Err(error) => {
            drop(table);
            Err(error)
        }
    }
}

/// Puts what a content says behind a text: its name, the interface that declares it, and what it leads to.
fn push_content(text: &mut String, content: &ResolvedContent) -> Result<(), AllocError> {
    let (name, from) = (content.content.name.as_str(), content.from.as_str());
    write!(text, "{name}@{from}")?;
    match &content.content.kind {
        ContentKind::Component { of } => write!(text, "={} ", of.as_str()),
        ContentKind::Relationship {
            target: Some(target),
            ..
        } => write!(text, "={} ", target.as_str()),
        _ => text.push(' '),
    }
}

/// The same of contents, in their order.
fn push_contents(text: &mut String, contents: &[ResolvedContent]) -> Result<(), AllocError> {
    for content in contents {
        push_content(text, content)?;
    }
    Ok(())
}

/// The same of identifiers.
fn push_ids(text: &mut String, ids: &[Dtmi]) -> Result<(), AllocError> {
    for id in ids {
        write!(text, "{} ", id.as_str())?;
    }
    Ok(())
}

/// The same of interfaces, with how many schemas each declares.
fn push_named(text: &mut String, named: &[NamedIn]) -> Result<(), AllocError> {
    for one in named {
        write!(text, "{}:{} ", one.of.as_str(), one.schemas.len())?;
    }
    Ok(())
}

/// The same of the interfaces of components, with the contents that each has.
fn push_parts(text: &mut String, parts: &[PartOf]) -> Result<(), AllocError> {
    for part in parts {
        write!(text, "{}: ", part.of.as_str())?;
        push_contents(text, part.contents.as_slice())?;
    }
    Ok(())
}

/// What an interface has: its contents, its ancestors, the schemas, and what its components consist of.
fn said_of(alloc: Global, resolved: &Resolved) -> Result<String, Fail> {
    let mut text = String::new(alloc);
    push_contents(&mut text, resolved.contents.as_slice())?;
    text.push_str("| ")?;
    push_ids(&mut text, resolved.ancestors.as_slice())?;
    text.push_str("| ")?;
    push_named(&mut text, resolved.named.as_slice())?;
    text.push_str("| ")?;
    push_parts(&mut text, resolved.parts.as_slice())?;
    Ok(text)
}

/// Who is asked.
#[derive(Clone, Copy)]
enum Way {
    Models,
    Set,
    Table,
}

/// What models say of an interface; nothing where there is none.
fn said_by_models(alloc: Global, models: &Models, id: &Dtmi) -> Result<String, Fail> {
    let Some(resolved) = models.resolved(id)? else {
        return Ok(String::new(alloc));
    };
    let said = said_of(alloc, &resolved);
    drop(resolved);
    said
}

/// The same of the set of their interfaces.
fn said_by_set(alloc: Global, models: &Models, id: &Dtmi) -> Result<String, Fail> {
    models.sound();
    let set = models.set();
    if set.get(id).is_none() {
        return Ok(String::new(alloc));
    }
    let resolved = resolve(alloc, set, id)?;
    let said = said_of(alloc, &resolved);
    drop(resolved);
    said
}

/// The same of a table.
fn said_by_table(alloc: Global, table: &Table, id: &Dtmi) -> Result<String, Fail> {
    match table.get(id) {
        Some(resolved) => said_of(alloc, resolved),
        None => Ok(String::new(alloc)),
    }
}

/// What is said of an interface by who is asked.
fn said_by(
    alloc: Global,
    way: Way,
    models: &Models,
    table: &Table,
    id: &str,
) -> Result<String, Fail> {
    let id = Dtmi::read(alloc, id)?;
    let said = match way {
        Way::Models => said_by_models(alloc, models, &id),
        Way::Set => said_by_set(alloc, models, &id),
        Way::Table => said_by_table(alloc, table, &id),
    };
    drop(id);
    said
}

/// The interfaces, and what each has.
const FAMILY: [(&str, &str); 5] = [
    (
        "dtmi:hall;1",
        "Seats@dtmi:hall;1 heat@dtmi:place;1 lamp@dtmi:room;1=dtmi:lamp;1 leads@dtmi:room;1=dtmi:place;1 state@dtmi:place;1 | dtmi:hall;1 dtmi:place;1 dtmi:room;1 | dtmi:hall;1:0 dtmi:lamp;1:0 dtmi:place;1:1 dtmi:room;1:0 | dtmi:lamp;1: blink@dtmi:lamp;1 on@dtmi:lamp;1 ",
    ),
    (
        "dtmi:room;1",
        "heat@dtmi:place;1 lamp@dtmi:room;1=dtmi:lamp;1 leads@dtmi:room;1=dtmi:place;1 state@dtmi:place;1 | dtmi:place;1 dtmi:room;1 | dtmi:lamp;1:0 dtmi:place;1:1 dtmi:room;1:0 | dtmi:lamp;1: blink@dtmi:lamp;1 on@dtmi:lamp;1 ",
    ),
    (
        "dtmi:place;1",
        "heat@dtmi:place;1 state@dtmi:place;1 | dtmi:place;1 | dtmi:place;1:1 | ",
    ),
    (
        "dtmi:lamp;1",
        "blink@dtmi:lamp;1 on@dtmi:lamp;1 | dtmi:lamp;1 | dtmi:lamp;1:0 | ",
    ),
    ("dtmi:place;2", ""),
];

/// The first interface of which something else is said, or none.
fn first_wrong_of(
    alloc: Global,
    way: Way,
    models: &Models,
    table: &Table,
) -> Result<Option<&'static str>, Fail> {
    for (id, want) in FAMILY {
        if said_by(alloc, way, models, table, id)?.as_str() != want {
            return Ok(Some(id));
        }
    }
    Ok(None)
}

/// The same of the models of the document and their table.
fn first_wrong(alloc: Global, way: Way) -> Result<Option<&'static str>, Fail> {
    let (models, ids) = family(alloc)?;
    let table = table_of(alloc, &models, ids.as_slice());
    let wrong = match &table {
        Ok(table) => first_wrong_of(alloc, way, &models, table),
        Err(_) => Ok(Some("no table")),
    };
    drop((models, ids, table));
    wrong
}

#[test]
fn resolves_a_family(rt: HostRuntime) -> Result<(), Fail> {
    for way in [Way::Models, Way::Set, Way::Table] {
        assert_eq!(rt; first_wrong(rt.alloc(), way)?, None);
    }
    Ok(())
}

/// Whether the models have an interface, of which another one is an ancestor.
fn is_ancestor(models: &Models, id: &Dtmi, ancestor: &Dtmi) -> bool {
    models.sound();
    let set = models.set();
    if set.get(id).is_none() {
        return false;
    }
    is_a(set, id, ancestor)
}

/// Two identifiers, and whether the second one is that of an ancestor of the first.
const KIN: [(&str, &str, bool); 11] = [
    ("dtmi:hall;1", "dtmi:hall;1", true),
    ("dtmi:hall;1", "dtmi:room;1", true),
    ("dtmi:hall;1", "dtmi:place;1", true),
    ("dtmi:room;1", "dtmi:place;1", true),
    ("dtmi:room;1", "dtmi:hall;1", false),
    ("dtmi:place;1", "dtmi:room;1", false),
    ("dtmi:place;1", "dtmi:hall;1", false),
    ("dtmi:room;1", "dtmi:lamp;1", false),
    ("dtmi:lamp;1", "dtmi:room;1", false),
    ("dtmi:room;1", "dtmi:place;2", false),
    ("dtmi:place;2", "dtmi:place;2", false),
];

/// Whether the models have an interface of the first identifier and an ancestor of it of the second.
fn are_kin(alloc: Global, models: &Models, id: &str, ancestor: &str) -> Result<bool, Fail> {
    let id = Dtmi::read(alloc, id)?;
    let Ok(ancestor) = Dtmi::read(alloc, ancestor) else {
        drop(id);
        return Err(Fail::from("no identifier"));
    };
    let are_kin = is_ancestor(models, &id, &ancestor);
    drop((id, ancestor));
    Ok(are_kin)
}

/// The first row that is not so, or none.
fn first_unlike(
    alloc: Global,
    models: &Models,
) -> Result<Option<(&'static str, &'static str)>, Fail> {
    for (id, ancestor, want) in KIN {
        if are_kin(alloc, models, id, ancestor)? != want {
            return Ok(Some((id, ancestor)));
        }
    }
    Ok(None)
}

/// The same of the models of the document.
fn unlike(alloc: Global) -> Result<Option<(&'static str, &'static str)>, Fail> {
    let (models, ids) = family(alloc)?;
    let unlike = first_unlike(alloc, &models);
    drop((models, ids));
    unlike
}

#[test]
fn knows_ancestors(rt: HostRuntime) -> Result<(), Fail> {
    assert_eq!(rt; unlike(rt.alloc())?, None);
    Ok(())
}
