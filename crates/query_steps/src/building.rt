//! Conditions, put together from their parts.

ghost use Rattle.std.specs.Prelude.{◌≡◌, Some, IfOk};
ghost use Rattle.query_terms.specs.Conditions.{condition, compared, among, not_among, is_kind, has_part, of_model};
ghost use Rattle.query_grammar.specs.Machinery.Steps.{with_both, with_either, negations, closed, left_chain, membership};

use dt_base::{List, OutOfMemory};
use query_grammar::{Around, Built, Chain, Chains, Head, Notes, State};
use query_terms::{Cond, Literal, Operand};
use std::alloc::Global;

/// Both the condition before, if there is one, and this.
pub(crate) fn with_both(
    alloc: Global,
    before: Option<Built>,
    built: Built,
) -> Result<Built, OutOfMemory>
    ensures { IfOk result (λ b. b ≡ with_both before built) }
{
    match before {
        None => Ok(built),
        Some(before) => {
            let first = Box::new(alloc, before.cond)?;
            let second = Box::new(alloc, built.cond)?;
            Ok(Built {
                cond: Cond::And(first, second),
            })
        }
    }
}

/// The condition before, if there is one, or this.
pub(crate) fn with_either(
    alloc: Global,
    before: Option<Built>,
    built: Built,
) -> Result<Built, OutOfMemory>
    ensures { IfOk result (λ b. b ≡ with_either before built) }
{
    match before {
        None => Ok(built),
        Some(before) => {
            let first = Box::new(alloc, before.cond)?;
            let second = Box::new(alloc, built.cond)?;
            Ok(Built {
                cond: Cond::Or(first, second),
            })
        }
    }
}

/// The condition behind so many NOTs.
#[tactic(auto, using(crate::proofs::Negations::negations_more, crate::proofs::Negations::negations_all))]
pub(crate) fn negated(alloc: Global, built: Built, nots: u32) -> Result<Built, OutOfMemory>
    ensures { IfOk result (λ b. b ≡ negations nots built) }
{
    let mut built = built;
    'nots: for _count in 0..nots {
        let inner = Box::new(alloc, built.cond)?;
        built = Built {
            cond: Cond::Not(inner),
        };
    }
    Ok(built)
}

/// The factors of a term with one more, behind so many NOTs.
pub(crate) fn term_of(
    alloc: Global,
    both: Option<Built>,
    nots: u32,
    factor: Built,
) -> Result<Built, OutOfMemory>
    ensures { IfOk result (λ b. b ≡ with_both both (negations nots factor)) }
{
    let factor = negated(alloc, factor, nots)?;
    with_both(alloc, both, factor)
}

/// The state behind a whole factor.
pub(crate) fn closed(
    alloc: Global,
    notes: Notes,
    around: Around,
    factor: Built,
) -> Result<Option<State>, OutOfMemory>
    ensures { IfOk result (λ s. s ≡ Some (closed notes around factor)) }
{
    let Around {
        head,
        chain,
        chains,
        room: _,
    } = around;
    let Chain {
        either,
        both,
        nots,
        room,
    } = chain;
    let Ok(term) = term_of(alloc, both, nots, factor) else {
        drop((notes, head, either, chains));
        return Err(OutOfMemory);
    };
    Ok(Some(State::BehindFactor(notes, head, either, term, chains, room)))
}

/// The state behind a parenthesis that closes, where one is open.
pub(crate) fn left_chain(
    alloc: Global,
    notes: Notes,
    head: Head,
    chains: Chains,
    built: Built,
) -> Result<Option<State>, OutOfMemory>
    ensures { IfOk result (λ s. s ≡ left_chain notes head chains built) }
{
    let mut chains = chains;
    match chains.pop() {
        None => {
            drop((notes, head, chains, built));
            Ok(None)
        }
        Some(chain) => {
            let room = chain.room;
            let around = Around {
                head,
                chain,
                chains,
                room,
            };
            closed(alloc, notes, around, built)
        }
    }
}

/// That an operand is one of the literals, or else none of them.
pub(crate) fn membership(within: bool, operand: Operand, literals: List<Literal>) -> Built
    ensures { result ≡ membership within operand literals }
{
    if within {
        Built {
            cond: Cond::Among(operand, literals),
        }
    } else {
        Built {
            cond: Cond::NotAmong(operand, literals),
        }
    }
}
