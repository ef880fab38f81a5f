//! The codes of bodies.

ghost use Rattle.std.specs.Prelude.{◌≡◌};
ghost use Rattle.twin_value.specs.Codes.{code_name};

/// What a place of the body of a twin or a relationship can break, in the order in which it is named at one place (this
/// project's own).
#[derive(Clone, Copy, Debug, PartialEq, Eq)]
pub enum BodyCode {
    /// It is no object, or no text, where it must be one.
    WrongKind,
    /// The object lacks a member that it must have.
    MissingKey,
    /// It is no identifier of a model or of a twin, or no name.
    BadId,
    /// Nothing declares the member.
    UnknownMember,
    /// The value does not fit its schema.
    BadValue,
    /// The model declares no relationship of this name.
    UnknownRelationship,
}

impl BodyCode {
    /// The code, as it is printed. Takes no memory.
    pub fn text(&self) -> &'static str
        ensures { result.now ≡ code_name self.now }
    {
        match self {
            BodyCode::WrongKind => "WrongKind",
            BodyCode::MissingKey => "MissingKey",
            BodyCode::BadId => "BadId",
            BodyCode::UnknownMember => "UnknownMember",
            BodyCode::BadValue => "BadValue",
            BodyCode::UnknownRelationship => "UnknownRelationship",
        }
    }
}
