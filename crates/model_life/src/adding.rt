//! Whether models may be added.

ghost use Rattle.std.specs.Prelude.{◌≡◌, ◌+◌, ◌≤◌, None, length, map, IfOk, MatchResult, MatchOption};
ghost use Rattle.std.specs.List.{AllByRecursion};
ghost use Rattle.dtdl_terms.specs.Sets.{interface_at};
ghost use Rattle.extend_resolve.specs.Breaches.{IsSound};
ghost use Rattle.model_life.specs.Machinery.Judging.{IsFirstIn, RefusesIn};

use crate::ends::AddEnd;
use crate::models::MOST_MODELS;
use dt_base::OutOfMemory;
use dt_base::names::Dtmi;
use dtdl_terms::{Limit, ModelSet, Uploaded};
use extend_resolve::{SetEnd, check_set};
use std::alloc::Global;

/// The first of the uploads of which the set has the identifier.
fn first_there(set: &ModelSet, new: &[Uploaded]) -> Option<usize>
    ensures { MatchOption result (AllByRecursion (λ u. interface_at u.interface.id set.now ≡ None) new.now) (IsFirstIn set.now new.now) }
{
    'new: for index in 0..new.len() {
        if set.get(&new[index].interface.id).is_some() {
            return Some(index);
        }
    }
    None
}

/// Judges uploads by all but the limits on bytes.
pub fn judge(alloc: Global, set: &ModelSet, new: &[Uploaded]) -> Result<(), AddEnd>
    ensures { MatchResult result (λ _. AllByRecursion (λ u. interface_at u.interface.id set.now ≡ None) new.now × IsSound set.now new.now × (length set.now + length new.now ≤ 10000)) (RefusesIn set.now new.now) }
{
    if let Some(index) = first_there(set, new) {
        return Err(AddEnd::ModelExists {
            index: index as u64,
        });
    }
    match check_set(alloc, set, new) {
        Ok(_) => {}
        Err(SetEnd::Fault { index, spot, rule }) => {
            return Err(AddEnd::ModelFault { index, spot, rule });
        }
        Err(SetEnd::OutOfMemory) => return Err(AddEnd::OutOfMemory),
    }
    if set.len() as u64 > MOST_MODELS || new.len() as u64 > MOST_MODELS - set.len() as u64 {
        return Err(AddEnd::Full {
            limit: Limit::Models,
        });
    }
    Ok(())
}

/// The identifiers of uploads.
pub fn ids_of(alloc: Global, new: &[Uploaded]) -> Result<Vec<Dtmi>, OutOfMemory>
    ensures { IfOk result (λ ids. ids.items ≡ map (λ u. u.interface.id) new.now) }
{
    let mut ids = Vec::with_capacity(alloc, new.len())?;
    'new: for upload in new {
        ids.push(upload.interface.id.copy(alloc)?)?;
    }
    Ok(ids)
}
