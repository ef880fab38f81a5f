//! The limits of twins and of the graph.

ghost use Rattle.std.specs.Prelude.{◌≡◌, ◌≤◌, length, unwrap_or, IfOk, IfSome, MatchResult};
ghost use Rattle.std.specs.Option.{option_copied, option_map};
ghost use Rattle.graph_steps.specs.bodies.Bodies.{FailsBy};
ghost use Rattle.graph_steps.specs.bodies.Kept.{twin_view, IsKeptTwin};
ghost use Rattle.graph_steps.specs.held.Held.{state_of, twin_of, IsHeldTwin};
ghost use Rattle.graph_steps.specs.States.{Twin as GraphTwin, twin_at, twin_text, with_twin};
ghost use Rattle.graph_steps.specs.TwinAsks.{TwinFull};
ghost use Rattle.graph_steps.specs.Typed.{WellTyped};
ghost use Rattle.graph_steps.specs.held.Judged.{Unrefused};

use crate::twins::new_twin::NewTwin;
use dtdl_terms::Limit;
use graph_asks::Refusal;
use graph_steps::bodies::{BodyFailure, twin_bytes};
use graph_steps::held::Lent;
use graph_steps::twins::Held;
use twin_value::Twin;

/// The most bytes that the text of a twin has.
const MOST_TWIN_BYTES: u64 = 32_768;

/// The most twins that there are.
const MOST_TWINS: u64 = 100_000;

/// The most bytes that the texts of all twins and relationships have together.
const MOST_GRAPH_BYTES: u64 = 268_435_456;

/// How many twins there are with one that comes in the place of the one that there may be. Takes no memory.
fn twins_with(lent: &Lent<'_>, there: Option<&Held>) -> u64
    requires typed { WellTyped (state_of lent.now) }
    ensures { (t : GraphTwin) → option_map twin_of (option_copied there.entry) ≡ twin_at t.id (state_of lent.now) → result ≡ length (with_twin t (state_of lent.now)).twins }
{
    let twins = lent.twins().len();
    match there {
        Some(_) => twins,
        None => twins + 1,
    }
}

/// How many bytes the text of the twin has that there may be, 0 where there is none. Takes no memory.
fn bytes_before(there: Option<&Held>) -> u64
    requires { IfSome (option_copied there) IsHeldTwin }
    ensures { result ≡ unwrap_or (option_map (λ t. length (twin_text t)) (option_map twin_of (option_copied there.entry))) 0 }
{
    match there {
        Some(held) => held.bytes,
        None => 0,
    }
}

/// The twin that comes with how many bytes its text has, in the place of the one that there may be; refused where a limit of
/// the graph would be passed with it.
fn within_graph(
    lent: &Lent<'_>,
    there: Option<&Held>,
    twin: Twin,
    bytes: u64,
) -> Result<NewTwin, BodyFailure>
    requires typed { WellTyped (state_of lent.now) }
    requires there { option_map twin_of (option_copied there) ≡ twin_at twin.id (state_of lent.now) }
    requires held { IfSome (option_copied there) IsHeldTwin }
    requires kept { IsKeptTwin (twin_view twin) }
    requires size { bytes ≡ length (twin_text (twin_view twin)) }
    requires short { bytes ≤ 32768 }
    ensures full { MatchResult result
        (λ new. Unrefused (TwinFull (with_twin (twin_view twin) (state_of lent.now)) (twin_view twin)) × (new.twin ≡ twin))
        (FailsBy (TwinFull (with_twin (twin_view twin) (state_of lent.now)) (twin_view twin))) }
    ensures held { IfOk result (λ new. IsHeldTwin (record { twin = new.twin; bytes = new.bytes })) }
{
    if twins_with(lent, there) > MOST_TWINS {
        drop(twin);
        return Err(BodyFailure::Refused(Refusal::Full {
            limit: Limit::Twins,
        }));
    }
    let before = bytes_before(there);
    if lent.bytes() - before + bytes > MOST_GRAPH_BYTES {
        drop(twin);
        return Err(BodyFailure::Refused(Refusal::Full {
            limit: Limit::GraphBytes,
        }));
    }
    Ok(NewTwin { twin, bytes })
}

/// The twin that comes, in the place of the one that there may be, with how many bytes its text has; refused where a limit
/// would be passed with it. Fails for want of memory too.
pub(crate) fn within_limits(
    lent: &Lent<'_>,
    there: Option<&Held>,
    twin: Twin,
) -> Result<NewTwin, BodyFailure>
    requires typed { WellTyped (state_of lent.now) }
    requires there { option_map twin_of (option_copied there) ≡ twin_at twin.id (state_of lent.now) }
    requires held { IfSome (option_copied there) IsHeldTwin }
    requires kept { IsKeptTwin (twin_view twin) }
    ensures full { MatchResult result
        (λ new. Unrefused (TwinFull (with_twin (twin_view twin) (state_of lent.now)) (twin_view twin)) × (new.twin ≡ twin))
        (FailsBy (TwinFull (with_twin (twin_view twin) (state_of lent.now)) (twin_view twin))) }
    ensures held { IfOk result (λ new. IsHeldTwin (record { twin = new.twin; bytes = new.bytes })) }
{
    match twin_bytes(MOST_TWIN_BYTES, &twin) {
        Some(bytes) => within_graph(lent, there, twin, bytes),
        None => {
            drop(twin);
            Err(BodyFailure::Refused(Refusal::Full {
                limit: Limit::TwinBytes,
            }))
        }
    }
}
