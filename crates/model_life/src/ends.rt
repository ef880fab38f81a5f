//! How the calls on models end.

use dtdl_terms::{Limit, Spot};
use extend_resolve::SetRule;

/// Why models are not added. They are decided in the order in which they stand here.
#[derive(Debug, Drop)]
pub enum AddEnd {
    /// There is a model with the identifier of the upload at `index`, counted from 0, and with that of none before it.
    ModelExists {
        index: u64,
    },
    /// The first breach of the rules on sets: which of the uploads breaks a rule, counted from 0, where, and which rule.
    ModelFault {
        index: u64,
        spot: Spot,
        rule: SetRule,
    },
    /// The first limit on models that the models would pass together with the new ones.
    Full {
        limit: Limit,
    },
    /// There was no memory.
    OutOfMemory,
}

/// Why a model is not marked.
#[derive(Debug, Drop)]
pub enum MarkEnd {
    /// There is no model with the identifier.
    ModelNotFound,
}

/// Why a model is not dropped. They are decided in the order in which they stand here.
#[derive(Debug, Drop)]
pub enum DropEnd {
    /// There is no model with the identifier.
    ModelNotFound,
    /// Another model extends it directly or has a component of it.
    ModelInUse,
}
