//! Copies of asks, through the public call of `graph_asks`. Each original is let go before its copy is looked at.

use crate::made::{both, id_of, no_texts, tree_of, tree_text, with};
use dt_base::{List, OutOfMemory, Text};
use dtdl_terms::{Interface, Uploaded};
use graph_asks::Ask;
use json_tree::Tree;
use query_terms::{Cond, Projection, Query};
use std::alloc::Global;
use std::test::Fail;
use twin_patch::{Op, OpKind, Patch};

/// Two texts.
fn two(alloc: Global, first: &str, second: &str) -> Result<(Text, Text), OutOfMemory> {
    both(Text::from_str(alloc, first), Text::from_str(alloc, second))
}

/// A list of one text.
fn texts(alloc: Global, text: &str) -> Result<List<Text>, OutOfMemory> {
    with(Ok(List::new(alloc)), Text::from_str(alloc, text))
}

/// An interface that declares nothing, as the third one of a document.
fn upload(alloc: Global) -> Result<Uploaded, OutOfMemory> {
    let (id, base) = both(
        id_of(alloc, "dtmi:demo:Site;1"),
        Text::from_str(alloc, "/2"),
    )?;
    let interface = Interface {
        id,
        comment: None,
        description: no_texts(alloc),
        display_name: no_texts(alloc),
        parents: List::new(alloc),
        contents: List::new(alloc),
        schemas: List::new(alloc),
    };
    Ok(Uploaded {
        interface,
        document: 1,
        base,
        index: 2,
        id_at: 4,
        parents_at: None,
        parents_as_text: false,
        contents_at: Some(3),
    })
}

fn put_models(alloc: Global) -> Result<Ask, OutOfMemory> {
    let models = with(Ok(List::new(alloc)), upload(alloc))?;
    Ok(Ask::PutModels { models })
}

fn mark(alloc: Global) -> Result<Ask, OutOfMemory> {
    let id = id_of(alloc, "dtmi:demo:Site;1")?;
    Ok(Ask::Mark { id, on: true })
}

fn put_twin(alloc: Global) -> Result<Ask, OutOfMemory> {
    let named = both(
        Text::from_str(alloc, "t1"),
        id_of(alloc, "dtmi:demo:Site;1"),
    );
    let ((id, model), body) = both(named, tree_of(alloc, r#"{"level":[1,null]}"#))?;
    Ok(Ask::PutTwin { id, model, body })
}

/// A patch of one operation.
fn patch(alloc: Global) -> Result<Patch, OutOfMemory> {
    let path = texts(alloc, "full")?;
    let kind = OpKind::Replace(Tree::Bool(true));
    let ops = with(Ok(List::new(alloc)), Ok(Op { kind, path }))?;
    Ok(Patch { ops })
}

fn patch_part(alloc: Global) -> Result<Ask, OutOfMemory> {
    let ((id, name), patch) = both(two(alloc, "t1", "tank"), patch(alloc))?;
    Ok(Ask::PatchPart { id, name, patch })
}

fn list_out(alloc: Global) -> Result<Ask, OutOfMemory> {
    let (source, name) = two(alloc, "t1", "feeds")?;
    Ok(Ask::ListOut {
        source,
        name: Some(name),
        after: None,
    })
}

fn list_in(alloc: Global) -> Result<Ask, OutOfMemory> {
    let (target, after) = both(Text::from_str(alloc, "t1"), two(alloc, "t2", "r1"))?;
    Ok(Ask::ListIn {
        target,
        after: Some(after),
    })
}

/// The query `SELECT TOP(10) FROM DIGITALTWINS t WHERE IS_OF_MODEL(t, 'dtmi:demo:Site;1', exact)`.
fn ten_sites(alloc: Global) -> Result<Query, OutOfMemory> {
    let ((alias, twin), model) = both(two(alloc, "t", "t"), id_of(alloc, "dtmi:demo:Site;1"))?;
    Ok(Query {
        select: Projection::Star { top: Some(10) },
        relationships: false,
        alias: Some(alias),
        joins: List::new(alloc),
        cond: Some(Cond::OfModel {
            twin: Some(twin),
            model,
            exact: true,
        }),
    })
}

fn query(alloc: Global) -> Result<Ask, OutOfMemory> {
    let (query, after) = both(ten_sites(alloc), texts(alloc, "t2"))?;
    Ok(Ask::Query {
        query,
        after: Some(after),
    })
}

/// The ask of a row.
fn ask_of(alloc: Global, row: usize) -> Result<Ask, OutOfMemory> {
    match row {
        0 => put_models(alloc),
        1 => mark(alloc),
        2 => put_twin(alloc),
        3 => patch_part(alloc),
        4 => list_out(alloc),
        5 => list_in(alloc),
        6 => query(alloc),
        _ => Ok(Ask::ListModels),
    }
}

/// The first of these texts.
fn first_of(texts: &[Text]) -> &str {
    match texts.first() {
        Some(text) => text.as_str(),
        None => "-",
    }
}

/// A text that may be absent.
fn maybe(text: &Option<Text>) -> &str {
    match text {
        Some(text) => text.as_str(),
        None => "-",
    }
}

/// What the first of these uploads says.
fn upload_said(alloc: Global, uploads: &[Uploaded]) -> Result<String, Fail> {
    let Some(upload) = uploads.first() else {
        return Ok(String::new(alloc));
    };
    let (id, base) = (upload.interface.id.as_str(), upload.base.as_str());
    let contents_at = upload.contents_at.unwrap_or(0);
    let Uploaded { index, id_at, .. } = upload;
    Ok(format!(in alloc; "PutModels {id} {base} {index} {id_at} {contents_at}")?)
}

/// What the first operation of a patch says.
fn patch_said(alloc: Global, patch: &Patch) -> Result<String, Fail> {
    let Some(op) = patch.ops.as_slice().first() else {
        return Ok(String::new(alloc));
    };
    let path = first_of(op.path.as_slice());
    match &op.kind {
        OpKind::Add(_) => Ok(format!(in alloc; "add {path}")?),
        OpKind::Replace(value) => {
            let value = tree_text(alloc, value)?;
            Ok(format!(in alloc; "replace {path} {}", value.as_str())?)
        }
        OpKind::Remove => Ok(format!(in alloc; "remove {path}")?),
    }
}

/// The model of which a condition says that twins are.
fn model_in(cond: &Option<Cond>) -> &str {
    match cond {
        Some(Cond::OfModel { model, .. }) => model.as_str(),
        _ => "-",
    }
}

/// What a query says, and past which key.
fn query_said(alloc: Global, query: &Query, after: &Option<List<Text>>) -> Result<String, Fail> {
    let top = match &query.select {
        Projection::Star { top } => top.unwrap_or(0),
        _ => 0,
    };
    let after = match after {
        Some(texts) => first_of(texts.as_slice()),
        None => "-",
    };
    let (alias, model) = (maybe(&query.alias), model_in(&query.cond));
    Ok(format!(in alloc; "Query {top} {alias} {model} {after}")?)
}

/// What an ask to list relationships into a twin says.
fn list_in_said(
    alloc: Global,
    target: &Text,
    after: &Option<(Text, Text)>,
) -> Result<String, Fail> {
    let (source, id) = match after {
        Some((source, id)) => (source.as_str(), id.as_str()),
        None => ("-", "-"),
    };
    Ok(format!(in alloc; "ListIn {} {source} {id}", target.as_str())?)
}

/// What an ask says.
fn ask_said(alloc: Global, ask: &Ask) -> Result<String, Fail> {
    match ask {
        Ask::PutModels { models } => upload_said(alloc, models.as_slice()),
        Ask::ListModels => Ok(String::from_str(alloc, "ListModels")?),
        Ask::Mark { id, on } => Ok(format!(in alloc; "Mark {} {on}", id.as_str())?),
        Ask::PutTwin { id, model, body } => {
            let body = tree_text(alloc, body)?;
            let (id, model) = (id.as_str(), model.as_str());
            Ok(format!(in alloc; "PutTwin {id} {model} {}", body.as_str())?)
        }
        Ask::PatchPart { id, name, patch } => {
            let patch = patch_said(alloc, patch)?;
            let (id, name) = (id.as_str(), name.as_str());
            Ok(format!(in alloc; "PatchPart {id} {name} {}", patch.as_str())?)
        }
        Ask::ListOut {
            source,
            name,
            after,
        } => {
            let (name, after) = (maybe(name), maybe(after));
            Ok(format!(in alloc; "ListOut {} {name} {after}", source.as_str())?)
        }
        Ask::ListIn { target, after } => list_in_said(alloc, target, after),
        Ask::Query { query, after } => query_said(alloc, query, after),
        _ => Ok(String::new(alloc)),
    }
}

/// The copy of the ask of a row.
fn ask_copy(alloc: Global, row: usize) -> Result<Ask, OutOfMemory> {
    let ask = ask_of(alloc, row)?;
    let copy = ask.copy(alloc);
    drop(ask);
    copy
}

/// What the copy of the ask of a row says.
fn copy_said(alloc: Global, row: usize) -> Result<String, Fail> {
    let copy = ask_copy(alloc, row)?;
    let said = ask_said(alloc, &copy);
    drop(copy);
    said
}

/// What the asks say, in the order of their rows.
const ASKS: [&str; 8] = [
    "PutModels dtmi:demo:Site;1 /2 2 4 3",
    "Mark dtmi:demo:Site;1 true",
    r#"PutTwin t1 dtmi:demo:Site;1 {"level":[1,null]}"#,
    "PatchPart t1 tank replace full true",
    "ListOut t1 feeds -",
    "ListIn t1 t2 r1",
    "Query 10 t dtmi:demo:Site;1 t2",
    "ListModels",
];

#[test]
fn copies_asks(rt: HostRuntime) -> Result<(), Fail> {
    for (row, want) in ASKS.iter().enumerate() {
        assert_eq!(rt; copy_said(rt.alloc(), row)?.as_str(), *want);
    }
    Ok(())
}
