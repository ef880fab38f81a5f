//! Models that come, and go back where a twin would not fit.

ghost use Rattle.std.specs.Prelude.{◌≡◌, ◌<◌, [], map, length, slice_get, Some, IfOk, MatchResult, OnErr, OnOk};
ghost use Rattle.dt_base.specs.names.Grammar.{dtmi_text};
ghost use Rattle.dtdl_terms.specs.Distinct.{AreDistinct};
ghost use Rattle.extend_resolve.specs.Breaches.{IsSound};
ghost use Rattle.graph_asks.specs.declared.refusal.Refusal.{Refusal as Refusals};
ghost use Rattle.graph_steps.specs.bodies.Bodies.{FailsBy};
ghost use Rattle.graph_steps.specs.ModelAsks.{RefusesPutModels};
ghost use Rattle.graph_steps.specs.Soundness.{AreSoundUploads};
ghost use Rattle.graph_steps.specs.States.{State};
ghost use Rattle.model_life.specs.sets.Changing.{AreFree};
ghost use Rattle.model_life.specs.Models.{interfaces_of, with_new_models, without_models};
ghost use Rattle.model_life.specs.Refusals.{AreNew, RefusesUploads};
ghost use Rattle.model_life.specs.Sums.{AreWithinLimits};
ghost use Rattle.model_life.specs.resolution.Resolving.{HoldsRight};
ghost use Rattle.graph_steps.specs.held.Held.{holding, state_of, HoldsTogether};

use crate::answers::id_text;
use dt_base::names::Dtmi;
use dt_base::{List, OutOfMemory, Text};
use dtdl_terms::{Uploaded, spot_pointer};
use graph_asks::{At, Refusal};
use graph_judges::fits::least_misfit;
use graph_steps::bodies::BodyFailure;
use graph_steps::held::{Lent, Stored};
use graph_steps::twins::Twins;
use model_life::resolution::{Resolutions, held_stay_right};
use model_life::{AddEnd, Models, one_sum};
use rel_graph::Rels;
use std::alloc::Global;

/// Copies of interfaces with their places.
fn copy_uploads(alloc: Global, new: &[Uploaded]) -> Result<List<Uploaded>, OutOfMemory>
    ensures { IfOk result (λ copies. copies ≡ new.now) }
{
    let mut copies = Vec::with_capacity(alloc, new.len())?;
    'new: for upload in new {
        copies.push(upload.copy(alloc)?)?;
    }
    Ok(List::from_vec(copies))
}

/// The identifiers of uploads.
fn ids_of(alloc: Global, new: &[Uploaded]) -> Result<Vec<Dtmi>, OutOfMemory>
    ensures { IfOk result (λ ids. ids.items ≡ map (λ u. u.interface.id) new.now) }
{
    let mut ids = Vec::with_capacity(alloc, new.len())?;
    'new: for upload in new {
        ids.push(upload.interface.id.copy(alloc)?)?;
    }
    Ok(ids)
}

/// The upload at a position.
fn upload_at(new: &[Uploaded], index: u64) -> &Uploaded
    requires { index < length new.now }
    ensures { slice_get new.now index ≡ Some result.now }
{
    &new[index as usize]
}

/// Why models are refused, where they are not for want of memory.
fn refused(
    alloc: Global,
    models: &Models,
    new: &[Uploaded],
    end: AddEnd,
) -> Result<Refusal, OutOfMemory>
    requires { RefusesUploads models.now new.now end }
    ensures { IfOk result (λ refusal. (s : State) → s.models ≡ models.now → RefusesPutModels s new.now refusal) }
{
    match end {
        AddEnd::ModelExists { index } => Ok(Refusal::ModelExists {
            id: id_text(alloc, &upload_at(new, index).interface.id)?,
        }),
        AddEnd::ModelFault { index, spot, rule } => Ok(Refusal::ModelFault {
            at: At::Pointer(spot_pointer(alloc, upload_at(new, index), &spot)?),
            fault: Text::from_str(alloc, rule.text())?,
        }),
        AddEnd::Full { limit } => Ok(Refusal::Full { limit }),
        AddEnd::OutOfMemory => Err(OutOfMemory),
    }
}

/// Adds models, where they break no rule and pass no limit on models. Fails by the refusal, or for want of memory: no model
/// comes.
fn add(alloc: Global, models: &mut Models, new: &[Uploaded]) -> Result<(), BodyFailure>
    requires { AreSoundUploads new.now }
    ensures judged { (s : State) → s.models ≡ models.old → MatchResult result (λ _. AreNew models.old new.now × IsSound (interfaces_of models.old) new.now × AreWithinLimits (with_new_models new.now models.old)) (FailsBy (RefusesPutModels s new.now)) }
    ensures ok { OnOk result (models.new ≡ with_new_models new.now models.old) }
    ensures err { OnErr result (models.new ≡ models.old) }
{
    let copies = copy_uploads(alloc, new)?;
    match models.add(copies) {
        Ok(_) => Ok(()),
        Err(end) => Err(BodyFailure::Refused(refused(alloc, models, new, end)?)),
    }
}

/// Takes models that no other model names out again, and lets go of all that is held of models. Takes no memory.
fn give_back(models: &mut Models, resolutions: &mut Resolutions, ids: &[Dtmi])
    requires distinct { AreDistinct (map (λ id. dtmi_text id) ids.now) }
    requires free { AreFree (interfaces_of models.old) ids.now }
    ensures models { models.new ≡ without_models ids.now models.old }
    ensures resolutions { resolutions.new ≡ [] }
{
    models.take_back(ids);
    resolutions.clear();
}

/// Adds models, where each twin that would become live fits its model, and each relationship of it stays well typed. Fails by
/// the refusal, or for want of memory: no model comes.
pub(crate) fn models_come(
    alloc: Global,
    models: &mut Models,
    resolutions: &mut Resolutions,
    twins: &Twins,
    links: &Rels<Stored>,
    link_bytes: u64,
    new: &[Uploaded],
) -> Result<(), BodyFailure>
    requires sound { AreSoundUploads new.now }
    requires kept { HoldsTogether (holding models.old twins.now links.now) resolutions.old link_bytes }
    ensures judged { MatchResult result
        (λ _. (r : Refusals) → RefusesPutModels (state_of (holding models.old twins.now links.now)) new.now r → ⊥)
        (FailsBy (RefusesPutModels (state_of (holding models.old twins.now links.now)) new.now)) }
    ensures new { IfOk result (λ _. AreNew models.old new.now) }
    ensures ok { OnOk result (models.new ≡ with_new_models new.now models.old) }
    ensures err { OnErr result (models.new ≡ models.old) }
    ensures right { HoldsRight (interfaces_of models.new) resolutions.new }
{
    one_sum();
    held_stay_right();
    let ids = ids_of(alloc, new)?;
    match add(alloc, models, new) {
        Ok(_) => {}
        Err(failure) => return Err(failure),
    }
    let lent = Lent::new(alloc, models, twins, links, link_bytes);
    match least_misfit(&lent, resolutions, new) {
        Ok(None) => Ok(()),
        Ok(Some(id)) => {
            give_back(models, resolutions, ids.as_slice());
            Err(BodyFailure::Refused(Refusal::TwinDoesNotFit { twin: id }))
        }
        Err(_) => {
            give_back(models, resolutions, ids.as_slice());
            Err(BodyFailure::OutOfMemory)
        }
    }
}
