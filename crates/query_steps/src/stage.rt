//! Which part of a query a state stands in.

ghost use Rattle.std.specs.Prelude.{◌≡◌};
ghost use Rattle.query_steps.specs.Machinery.Stages.{stage};

use query_grammar::State;

/// A part of a query. The states of one part are stepped by one function, so that a step pays for the locals of a few
/// states alone.
pub(crate) enum Stage {
    /// What is selected, up to the first item.
    Selecting,
    /// The items.
    Items,
    /// Where rows come from.
    Sourcing,
    /// The joins.
    Joining,
    /// The paths in a condition.
    Paths,
    /// The other operands of a condition, and what stands before and behind operands.
    Operands,
    /// Lists, and what stands behind a function's name and behind a factor.
    Lists,
    /// A test for a model.
    Model,
}

/// The part of a query that a state stands in.
pub(crate) fn stage_of(state: &State) -> Stage
    ensures { result ≡ stage state.now }
{
    match state {
        State::Start
        | State::Select
        | State::CountOpen
        | State::CountClose
        | State::TopOpen
        | State::TopNumber
        | State::TopClose(_)
        | State::BehindTop(_)
        | State::BehindSelect(_, _) => Stage::Selecting,
        State::ItemStart(_, _, _)
        | State::ItemPath(_, _, _, _, _)
        | State::ItemField(_, _, _, _)
        | State::ItemAs(_, _, _, _)
        | State::BehindItem(_, _, _) => Stage::Items,
        State::Source(_, _)
        | State::RelationshipsAlias(_, _)
        | State::BehindRelationships(_, _)
        | State::TwinsAlias(_, _)
        | State::BehindTwins(_, _) => Stage::Sourcing,
        State::JoinTarget(_, _)
        | State::JoinRelated(_, _, _)
        | State::JoinSource(_, _, _)
        | State::JoinDot(_, _, _, _)
        | State::JoinName(_, _, _, _)
        | State::JoinAlias(_, _, _, _, _) => Stage::Joining,
        State::Path(_, _, _, _) | State::Field(_, _, _, _) => Stage::Paths,
        State::Factor(_, _) | State::Operand(_, _, _) | State::Behind(_, _, _, _) => {
            Stage::Operands
        }
        State::FunctionOpen(_, _, _)
        | State::ListOpen(_, _, _, _)
        | State::ListItem(_, _, _, _, _)
        | State::BehindListItem(_, _, _, _, _)
        | State::BehindFactor(_, _, _, _, _, _) => Stage::Lists,
        State::ModelOpen(_, _, _)
        | State::ModelStart(_, _, _)
        | State::ModelComma(_, _, _)
        | State::ModelText(_, _, _)
        | State::BehindModel(_, _, _, _)
        | State::Exact(_, _, _, _)
        | State::ModelClose(_, _, _, _) => Stage::Model,
    }
}
