//! What is made of a request.

use graph_asks::{Ask, Refusal};

/// What is made of a request.
#[derive(Debug, Drop)]
pub enum Prepared {
    /// It asks this of the graph.
    Ask(Ask),
    /// Its own bytes decide this refusal.
    Own(Refusal),
}
