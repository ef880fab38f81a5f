//! One edge.

use dt_base::Text;

/// An edge from a source to a target, under an id that is the source's own, with a name and what it carries.
#[derive(Debug, Drop)]
pub struct Edge<P> {
    pub source: Text,
    pub id: Text,
    pub name: Text,
    pub target: Text,
    pub payload: P,
}

/// No memory was found. The edge comes back.
#[derive(Debug, Drop)]
pub struct PutEnd<P> {
    pub back: Edge<P>,
}
