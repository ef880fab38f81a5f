//! The paths of the resources.

/// A path of the table. A part in braces stands for any text without a slash but the empty one.
#[derive(Clone, Copy, Debug, PartialEq, Eq)]
pub enum Route {
    /// `/models`
    Models,
    /// `/models/{id}`
    Model,
    /// `/canon`
    Canon,
    /// `/digitaltwins/{id}`
    Twin,
    /// `/digitaltwins/{id}/components/{name}`
    Component,
    /// `/digitaltwins/{id}/relationships`
    Relationships,
    /// `/digitaltwins/{id}/relationships/{rid}`
    Relationship,
    /// `/digitaltwins/{id}/incomingrelationships`
    IncomingRelationships,
    /// `/query`
    Query,
}
