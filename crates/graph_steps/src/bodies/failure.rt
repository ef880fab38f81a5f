//! Why a body or a patch was not taken.

ghost use Rattle.std.specs.Prelude.{◌≡◌, IfOk};
ghost use Rattle.json_tree.specs.View.{view};
ghost use Rattle.graph_steps.specs.declared.bodies.failure.BodyFailure.TheVariants as failures;
ghost use Rattle.graph_steps.specs.bodies.Machinery.Faults.{Names, EndsSomewhere, TellsFailure};
ghost use Rattle.json_tree.specs.Places.{IsSomewhere};

use dt_base::{OutOfMemory, Text};
use graph_asks::{At, Refusal};
use json_tree::{Place, Tree, pointer_of};
use std::alloc::Global;
use thiserror::Error;
use twin_value::{BodyCode, BodyEnd};

/// Why a body or a patch was not taken (this project's own).
#[derive(Debug, Drop, Error)]
pub enum BodyFailure {
    /// It is refused.
    #[error("the body is refused")]
    Refused(Refusal),
    /// No memory was found, which says nothing of the body.
    #[error("out of memory")]
    OutOfMemory,
}

impl From<OutOfMemory> for BodyFailure {
    ghost from_gives = { λ _ failure. failure ≡ failures.OutOfMemory };

    fn from(_error: OutOfMemory) -> BodyFailure {
        BodyFailure::OutOfMemory
    }
}

/// The refusal of a body that has a breach at a place.
pub fn fault_at(
    alloc: Global,
    tree: &Tree,
    place: &Place,
    code: BodyCode,
) -> Result<Refusal, OutOfMemory>
    requires { IsSomewhere (view tree.now) place.now.steps }
    ensures { IfOk result (Names (view tree.now) place.now.steps code) }
{
    let pointer = pointer_of(alloc, tree, place)?;
    let fault = Text::from_str(alloc, code.text())?;
    Ok(Refusal::BodyFault {
        at: At::Pointer(pointer.text),
        fault,
    })
}

/// What the end of a reading tells.
pub fn failure_of(alloc: Global, tree: &Tree, end: BodyEnd) -> BodyFailure
    requires { EndsSomewhere (view tree.now) end }
    ensures { TellsFailure (view tree.now) end result }
{
    match end {
        BodyEnd::Fault { place, code } => match fault_at(alloc, tree, &place, code) {
            Ok(refusal) => BodyFailure::Refused(refusal),
            Err(OutOfMemory) => BodyFailure::OutOfMemory,
        },
        BodyEnd::OutOfMemory => BodyFailure::OutOfMemory,
    }
}
