//! Texts that are no queries.

ghost use Rattle.std.specs.Prelude.{◌≡◌, IfOk};
ghost use Rattle.graph_asks.specs.declared.refusal.Refusal.TheVariants as refusals;
ghost use Rattle.query_bodies.specs.Outcomes.{TellsFault};

use dt_base::{OutOfMemory, Text};
use graph_asks::{At, Refusal};
use query_parse::QueryFault;
use std::alloc::Global;

/// The refusal of a text by this code, at this place of it, if there is one.
fn refusal_by(alloc: Global, code: &str, at: Option<At>) -> Result<Refusal, OutOfMemory>
    ensures { IfOk result (λ refusal. refusal ≡ refusals.QueryFault code.now at) }
{
    Ok(Refusal::QueryFault {
        fault: Text::from_str(alloc, code)?,
        at,
    })
}

/// The refusal that tells of a fault. Only want of memory makes it fail, of which the fault may tell already.
pub fn fault_refusal(alloc: Global, fault: &QueryFault) -> Result<Refusal, OutOfMemory>
    ensures { IfOk result (TellsFault fault.now) }
{
    match fault {
        QueryFault::TooLong => refusal_by(alloc, "TooLong", None),
        QueryFault::Byte { at } => refusal_by(alloc, "Byte", Some(At::Number(u64::from(*at)))),
        QueryFault::TooManyJoins => refusal_by(alloc, "TooManyJoins", None),
        QueryFault::StarWithJoin => refusal_by(alloc, "StarWithJoin", None),
        QueryFault::TwiceAlias { at } => {
            refusal_by(alloc, "TwiceAlias", Some(At::Number(u64::from(*at))))
        }
        QueryFault::UnknownAlias { at } => {
            refusal_by(alloc, "UnknownAlias", Some(At::Number(u64::from(*at))))
        }
        QueryFault::OutOfMemory => Err(OutOfMemory),
    }
}
