//! Why a request or an ask is refused.

ghost use Rattle.std.specs.Prelude.{◌≡◌, ◌≢◌, IfOk};
ghost use Rattle.graph_asks.specs.Machinery.Groups.{group_of};

use crate::copies::copy_two;
use dt_base::{OutOfMemory, Text};
use dtdl_terms::Limit;
use std::alloc::Global;

/// Where a fault stands.
#[derive(Debug, Drop)]
pub enum At {
    /// At this byte.
    Number(u64),
    /// At this place, as a JSON Pointer (RFC 6901).
    Pointer(Text),
}

impl At {
    /// An equal place in memory of its own. Fails only for want of memory.
    pub fn copy(&self, alloc: Global) -> Result<At, OutOfMemory>
        ensures { IfOk result (λ copy. copy ≡ self.now) }
    {
        match self {
            At::Number(byte) => Ok(At::Number(*byte)),
            At::Pointer(pointer) => Ok(At::Pointer(pointer.copy(alloc)?)),
        }
    }
}

/// Why a request or an ask is refused; each variant is a code of this project's own. The first ones are decided by
/// the bytes of a request alone, those from `ModelNotFound` on by the graph, and of some kinds both decide.
#[derive(Debug, Drop)]
pub enum Refusal {
    /// The path is none that is served.
    NoRoute,
    /// The path is served, but not for this method. `allow` lists the methods that are, as the field `Allow` of a
    /// reply has them (RFC 9110, section 10.2.1).
    BadMethod { allow: Text },
    /// The stream begins with no head of a request.
    BadHead,
    /// The stream ends inside a body.
    CutOff,
    /// The body comes in a transfer coding.
    TransferCoding,
    /// The body has more than `limit` bytes.
    BodyTooLong { limit: u64 },
    /// The variable part of the path at this position, counted from 0, is no identifier of its kind.
    BadId { part: u64 },
    /// The token of a page is none.
    BadToken,
    /// The body is no JSON text of the profile.
    JsonFault { at: At, fault: Text },
    /// The body lists more than `limit` models.
    TooManyModels { limit: u64 },
    /// A model breaks a rule.
    ModelFault { at: At, fault: Text },
    /// The body is no patch, or the patch cannot be applied: the position of the operation, and the code.
    PatchFault { fault: Text, index: u64 },
    /// The body of a twin or relationship, or the patched one, has a breach.
    BodyFault { at: At, fault: Text },
    /// An identifier in the body differs from that of the path.
    IdDiffers { given: Text, path: Text },
    /// The text is no query.
    QueryFault { fault: Text, at: Option<At> },
    /// There is no such model.
    ModelNotFound { id: Text },
    /// There is no such twin.
    TwinNotFound { id: Text },
    /// There is no such relationship.
    RelationshipNotFound { id: Text },
    /// The twin has no such component.
    ComponentNotFound { id: Text },
    /// The model is there already.
    ModelExists { id: Text },
    /// The model `by` names the model.
    ModelInUse { by: Text },
    /// The twin is an end of this relationship.
    TwinInUse { id: Text, source: Text },
    /// This relationship would not be well typed.
    DoesNotFit { id: Text, source: Text },
    /// This twin would not be well typed.
    TwinDoesNotFit { twin: Text },
    /// The twin's model was dropped.
    Frozen { model: Text },
    /// The model takes no more twins.
    Decommissioned { model: Text },
    /// The target twin is of this model, which is not what the relationship is to lead to.
    WrongTarget { model: Text },
    /// There are `max` relationships of the name already.
    Multiplicity { max: u64 },
    /// The limit would be passed.
    Full { limit: Limit },
}

impl Refusal {
    /// An equal refusal in memory of its own. Fails only for want of memory.
    pub fn copy(&self, alloc: Global) -> Result<Refusal, OutOfMemory>
        ensures { IfOk result (λ copy. copy ≡ self.now) }
    {
        match self {
            Refusal::NoRoute => Ok(Refusal::NoRoute),
            Refusal::BadMethod { allow } => Ok(Refusal::BadMethod {
                allow: allow.copy(alloc)?,
            }),
            Refusal::BadHead => Ok(Refusal::BadHead),
            Refusal::CutOff => Ok(Refusal::CutOff),
            Refusal::TransferCoding => Ok(Refusal::TransferCoding),
            Refusal::BodyTooLong { limit } => Ok(Refusal::BodyTooLong { limit: *limit }),
            Refusal::BadId { part } => Ok(Refusal::BadId { part: *part }),
            Refusal::BadToken => Ok(Refusal::BadToken),
            Refusal::JsonFault { at, fault } => {
                let (at, fault) = copy_fault(alloc, at, fault)?;
                Ok(Refusal::JsonFault { at, fault })
            }
            _ => self.copy_further(alloc),
        }
    }

    /// The same of a refusal that `copy` leaves to it.
    fn copy_further(&self, alloc: Global) -> Result<Refusal, OutOfMemory>
        requires { group_of self.now ≢ 0 }
        ensures { IfOk result (λ copy. copy ≡ self.now) }
    {
        match self {
            Refusal::TooManyModels { limit } => Ok(Refusal::TooManyModels { limit: *limit }),
            Refusal::ModelFault { at, fault } => {
                let (at, fault) = copy_fault(alloc, at, fault)?;
                Ok(Refusal::ModelFault { at, fault })
            }
            Refusal::PatchFault { fault, index } => Ok(Refusal::PatchFault {
                fault: fault.copy(alloc)?,
                index: *index,
            }),
            Refusal::BodyFault { at, fault } => {
                let (at, fault) = copy_fault(alloc, at, fault)?;
                Ok(Refusal::BodyFault { at, fault })
            }
            Refusal::IdDiffers { given, path } => {
                let (given, path) = copy_two(alloc, given, path)?;
                Ok(Refusal::IdDiffers { given, path })
            }
            Refusal::QueryFault { fault, at } => copy_query_fault(alloc, fault, at),
            Refusal::ModelNotFound { id } => Ok(Refusal::ModelNotFound {
                id: id.copy(alloc)?,
            }),
            Refusal::TwinNotFound { id } => Ok(Refusal::TwinNotFound {
                id: id.copy(alloc)?,
            }),
            Refusal::RelationshipNotFound { id } => Ok(Refusal::RelationshipNotFound {
                id: id.copy(alloc)?,
            }),
            Refusal::ComponentNotFound { id } => Ok(Refusal::ComponentNotFound {
                id: id.copy(alloc)?,
            }),
            _ => self.copy_last(alloc),
        }
    }

    /// The same of a refusal that both leave to it.
    fn copy_last(&self, alloc: Global) -> Result<Refusal, OutOfMemory>
        requires { group_of self.now ≡ 2 }
        ensures { IfOk result (λ copy. copy ≡ self.now) }
    {
        match self {
            Refusal::ModelExists { id } => Ok(Refusal::ModelExists {
                id: id.copy(alloc)?,
            }),
            Refusal::ModelInUse { by } => Ok(Refusal::ModelInUse {
                by: by.copy(alloc)?,
            }),
            Refusal::TwinInUse { id, source } => {
                let (id, source) = copy_two(alloc, id, source)?;
                Ok(Refusal::TwinInUse { id, source })
            }
            Refusal::DoesNotFit { id, source } => {
                let (id, source) = copy_two(alloc, id, source)?;
                Ok(Refusal::DoesNotFit { id, source })
            }
            Refusal::TwinDoesNotFit { twin } => Ok(Refusal::TwinDoesNotFit {
                twin: twin.copy(alloc)?,
            }),
            Refusal::Frozen { model } => Ok(Refusal::Frozen {
                model: model.copy(alloc)?,
            }),
            Refusal::Decommissioned { model } => Ok(Refusal::Decommissioned {
                model: model.copy(alloc)?,
            }),
            Refusal::WrongTarget { model } => Ok(Refusal::WrongTarget {
                model: model.copy(alloc)?,
            }),
            Refusal::Multiplicity { max } => Ok(Refusal::Multiplicity { max: *max }),
            Refusal::Full { limit } => Ok(Refusal::Full { limit: *limit }),
            _ => unreachable!(),
        }
    }
}

/// A refusal of a query with equal parts.
fn copy_query_fault(alloc: Global, fault: &Text, at: &Option<At>) -> Result<Refusal, OutOfMemory>
    ensures { IfOk result (λ copy. copy ≡ Refusal.QueryFault fault.now at.now) }
{
    let fault = fault.copy(alloc)?;
    let at = copy_at(alloc, at)?;
    Ok(Refusal::QueryFault { fault, at })
}

/// An equal place and an equal text.
fn copy_fault(alloc: Global, at: &At, fault: &Text) -> Result<(At, Text), OutOfMemory>
    ensures { IfOk result (λ copies. copies ≡ (at.now, fault.now)) }
{
    let at = at.copy(alloc)?;
    let fault = fault.copy(alloc)?;
    Ok((at, fault))
}

/// An equal place, where there is one.
fn copy_at(alloc: Global, at: &Option<At>) -> Result<Option<At>, OutOfMemory>
    ensures { IfOk result (λ copy. copy ≡ at.now) }
{
    match at {
        Some(at) => Ok(Some(at.copy(alloc)?)),
        None => Ok(None),
    }
}
