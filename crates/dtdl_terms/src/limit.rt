//! The limits of the graph.

ghost use Rattle.std.specs.Prelude.{◌≡◌};
ghost use Rattle.dtdl_terms.specs.Limits.{limit_code};

/// A limit that a change of the models or of the graph would pass (this project's own), in the order in which
/// limits are named: of several that would be passed, the first.
#[derive(Clone, Copy, Debug, PartialEq, Eq)]
pub enum Limit {
    /// The number of models.
    Models,
    /// The bytes of the models' canonical texts together.
    ModelBytes,
    /// The bytes of the canonical texts of all that the models extend and have as components, together.
    ResolvedBytes,
    /// The bytes of a twin's text.
    TwinBytes,
    /// The bytes of a relationship's text.
    RelationshipBytes,
    /// The number of twins.
    Twins,
    /// The number of relationships.
    Relationships,
    /// The bytes of the texts of all twins and relationships together.
    GraphBytes,
}

impl Limit {
    /// The name of the limit, as it is printed.
    pub fn text(&self) -> &'static str
        ensures { result.now ≡ limit_code self.now }
    {
        match self {
            Limit::Models => "models",
            Limit::ModelBytes => "modelBytes",
            Limit::ResolvedBytes => "resolvedBytes",
            Limit::TwinBytes => "twinBytes",
            Limit::RelationshipBytes => "relationshipBytes",
            Limit::Twins => "twins",
            Limit::Relationships => "relationships",
            Limit::GraphBytes => "graphBytes",
        }
    }
}
