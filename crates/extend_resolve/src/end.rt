//! How a judgement of a set ends.

use crate::rule::SetRule;
use dtdl_terms::Spot;

/// Why a set of interfaces is refused.
#[derive(Debug, Drop)]
pub enum SetEnd {
    /// The first breach: which of the new interfaces breaks a rule, counted from 0, where, and which rule.
    Fault {
        index: u64,
        spot: Spot,
        rule: SetRule,
    },
    /// There was no memory.
    OutOfMemory,
}
