//! What is asked.

ghost use Rattle.std.specs.Prelude.{◌≢◌, IfOk};
ghost use Rattle.graph_asks.specs.Asks.{AreOneAsk};
ghost use Rattle.graph_asks.specs.Machinery.Groups.{ask_group};

use crate::copies::{copy_pair, copy_text, copy_texts, copy_two, copy_uploads};
use dt_base::names::Dtmi;
use dt_base::{List, OutOfMemory, Text};
use dtdl_terms::Uploaded;
use json_tree::Tree;
use query_terms::Query;
use std::alloc::Global;
use twin_patch::Patch;

/// One thing that a graph of digital twins can be asked: to tell something, or to change (this project's own, after the
/// operations of Azure Digital Twins on models, twins, relationships and queries).
#[derive(Debug, Drop)]
pub enum Ask {
    /// To take these models, all or none.
    PutModels {
        models: List<Uploaded>,
    },
    /// For a model with its mark.
    GetModel {
        id: Dtmi,
    },
    /// For the identifiers and marks of all models.
    ListModels,
    /// To mark a model as decommissioned, or to take the mark away.
    Mark {
        id: Dtmi,
        on: bool,
    },
    /// To let a model go that no other one names. Its twins stay.
    DropModel {
        id: Dtmi,
    },
    /// For the canonical text of all models.
    Canon,
    /// To take a twin of this model, in place of one with its id.
    PutTwin {
        id: Text,
        model: Dtmi,
        body: Tree,
    },
    /// For a twin.
    GetTwin {
        id: Text,
    },
    /// To patch a twin.
    PatchTwin {
        id: Text,
        patch: Patch,
    },
    /// To let a twin go that is no end of a relationship.
    DropTwin {
        id: Text,
    },
    /// For a component of a twin.
    GetPart {
        id: Text,
        name: Text,
    },
    /// To patch a component of a twin.
    PatchPart {
        id: Text,
        name: Text,
        patch: Patch,
    },
    /// To take a relationship of this name to this target, in place of one with its source and id.
    PutRel {
        source: Text,
        id: Text,
        name: Text,
        target: Text,
        body: Tree,
    },
    /// For a relationship.
    GetRel {
        source: Text,
        id: Text,
    },
    /// To patch a relationship.
    PatchRel {
        source: Text,
        id: Text,
        patch: Patch,
    },
    /// To let a relationship go.
    DropRel {
        source: Text,
        id: Text,
    },
    /// For a page of the relationships out of a twin, of one name alone where it is given, past the id `after` where
    /// that is given.
    ListOut {
        source: Text,
        name: Option<Text>,
        after: Option<Text>,
    },
    /// For a page of the relationships into a twin, past the source and id `after` where they are given.
    ListIn {
        target: Text,
        after: Option<(Text, Text)>,
    },
    /// For a page of the rows of a query, past the key `after` where it is given.
    Query {
        query: Query,
        after: Option<List<Text>>,
    },
}

impl Ask {
    /// The same ask in memory of its own. Fails only for want of memory.
    pub fn copy(&self, alloc: Global) -> Result<Ask, OutOfMemory>
        ensures { IfOk result (λ copy. AreOneAsk copy self.now) }
    {
        match self {
            Ask::PutModels { models } => Ok(Ask::PutModels {
                models: copy_uploads(alloc, models.as_slice())?,
            }),
            Ask::GetModel { id } => Ok(Ask::GetModel {
                id: id.copy(alloc)?,
            }),
            Ask::ListModels => Ok(Ask::ListModels),
            Ask::Mark { id, on } => Ok(Ask::Mark {
                id: id.copy(alloc)?,
                on: *on,
            }),
            Ask::DropModel { id } => Ok(Ask::DropModel {
                id: id.copy(alloc)?,
            }),
            Ask::Canon => Ok(Ask::Canon),
            Ask::PutTwin { id, model, body } => copy_put_twin(alloc, id, model, body),
            Ask::GetTwin { id } => Ok(Ask::GetTwin {
                id: id.copy(alloc)?,
            }),
            Ask::PatchTwin { id, patch } => copy_patch_twin(alloc, id, patch),
            Ask::DropTwin { id } => Ok(Ask::DropTwin {
                id: id.copy(alloc)?,
            }),
            _ => self.copy_further(alloc),
        }
    }

    /// The same of an ask that `copy` leaves to it.
    fn copy_further(&self, alloc: Global) -> Result<Ask, OutOfMemory>
        requires { ask_group self.now ≢ 0 }
        ensures { IfOk result (λ copy. AreOneAsk copy self.now) }
    {
        match self {
            Ask::GetPart { id, name } => {
                let (id, name) = copy_two(alloc, id, name)?;
                Ok(Ask::GetPart { id, name })
            }
            Ask::PatchPart { id, name, patch } => copy_patch_part(alloc, id, name, patch),
            Ask::PutRel {
                source,
                id,
                name,
                target,
                body,
            } => copy_put_rel(alloc, source, id, name, target, body),
            Ask::GetRel { source, id } => {
                let (source, id) = copy_two(alloc, source, id)?;
                Ok(Ask::GetRel { source, id })
            }
            Ask::PatchRel { source, id, patch } => copy_patch_rel(alloc, source, id, patch),
            Ask::DropRel { source, id } => {
                let (source, id) = copy_two(alloc, source, id)?;
                Ok(Ask::DropRel { source, id })
            }
            Ask::ListOut {
                source,
                name,
                after,
            } => copy_list_out(alloc, source, name, after),
            Ask::ListIn { target, after } => copy_list_in(alloc, target, after),
            Ask::Query { query, after } => copy_query(alloc, query, after),
            _ => unreachable!(),
        }
    }
}

/// The same ask to take a twin.
fn copy_put_twin(alloc: Global, id: &Text, model: &Dtmi, body: &Tree) -> Result<Ask, OutOfMemory>
    ensures { IfOk result (λ copy. AreOneAsk copy (Ask.PutTwin id.now model.now body.now)) }
{
    let id = id.copy(alloc)?;
    let model = model.copy(alloc)?;
    let body = body.copy(alloc)?;
    Ok(Ask::PutTwin { id, model, body })
}

/// The same ask to patch a twin.
fn copy_patch_twin(alloc: Global, id: &Text, patch: &Patch) -> Result<Ask, OutOfMemory>
    ensures { IfOk result (λ copy. AreOneAsk copy (Ask.PatchTwin id.now patch.now)) }
{
    let id = id.copy(alloc)?;
    let patch = patch.copy(alloc)?;
    Ok(Ask::PatchTwin { id, patch })
}

/// The same ask to patch a component.
fn copy_patch_part(alloc: Global, id: &Text, name: &Text, patch: &Patch) -> Result<Ask, OutOfMemory>
    ensures { IfOk result (λ copy. AreOneAsk copy (Ask.PatchPart id.now name.now patch.now)) }
{
    let (id, name) = copy_two(alloc, id, name)?;
    let patch = patch.copy(alloc)?;
    Ok(Ask::PatchPart { id, name, patch })
}

/// The same ask to take a relationship.
fn copy_put_rel(
    alloc: Global,
    source: &Text,
    id: &Text,
    name: &Text,
    target: &Text,
    body: &Tree,
) -> Result<Ask, OutOfMemory>
    ensures { IfOk result (λ copy. AreOneAsk copy (Ask.PutRel source.now id.now name.now target.now body.now)) }
{
    let (source, id) = copy_two(alloc, source, id)?;
    let (name, target) = copy_two(alloc, name, target)?;
    let body = body.copy(alloc)?;
    Ok(Ask::PutRel {
        source,
        id,
        name,
        target,
        body,
    })
}

/// The same ask to patch a relationship.
fn copy_patch_rel(
    alloc: Global,
    source: &Text,
    id: &Text,
    patch: &Patch,
) -> Result<Ask, OutOfMemory>
    ensures { IfOk result (λ copy. AreOneAsk copy (Ask.PatchRel source.now id.now patch.now)) }
{
    let (source, id) = copy_two(alloc, source, id)?;
    let patch = patch.copy(alloc)?;
    Ok(Ask::PatchRel { source, id, patch })
}

/// The same ask for relationships out of a twin.
fn copy_list_out(
    alloc: Global,
    source: &Text,
    name: &Option<Text>,
    after: &Option<Text>,
) -> Result<Ask, OutOfMemory>
    ensures { IfOk result (λ copy. AreOneAsk copy (Ask.ListOut source.now name.now after.now)) }
{
    let source = source.copy(alloc)?;
    let name = copy_text(alloc, name)?;
    let after = copy_text(alloc, after)?;
    Ok(Ask::ListOut {
        source,
        name,
        after,
    })
}

/// The same ask for relationships into a twin.
fn copy_list_in(
    alloc: Global,
    target: &Text,
    after: &Option<(Text, Text)>,
) -> Result<Ask, OutOfMemory>
    ensures { IfOk result (λ copy. AreOneAsk copy (Ask.ListIn target.now after.now)) }
{
    let target = target.copy(alloc)?;
    let after = copy_pair(alloc, after)?;
    Ok(Ask::ListIn { target, after })
}

/// The same ask for the rows of a query.
fn copy_query(alloc: Global, query: &Query, after: &Option<List<Text>>) -> Result<Ask, OutOfMemory>
    ensures { IfOk result (λ copy. AreOneAsk copy (Ask.Query query.now after.now)) }
{
    let query = query.copy(alloc)?;
    let after = copy_texts(alloc, after)?;
    Ok(Ask::Query { query, after })
}
