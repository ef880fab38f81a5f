//! The grammar of queries: which tokens are a query and what it asks for, and what may follow in each state of a reader
//! that takes one token at a time. `query_steps` and `query_parse` are that reader.
#![tactic(auto)]

mod laws;
mod names;
mod state;

pub use laws::{
    begins_as_run, each_state_goes_on, ends_as_nothing_remains, one_query, query_as_run,
    steps_as_remains,
};
pub use names::{Notes, PlacedName, Referent, Use};
pub use state::{Around, Built, Chain, Chains, Goal, Head, State};
