//! The keys of the objects of a document.

ghost use Rattle.std.specs.Prelude.{◌≡◌};
ghost use Rattle.local_rules.specs.Tables.{key_text};

/// A key that some kind of object has (DTDL v2, the tables of members).
#[derive(Clone, Copy, Debug, PartialEq, Eq)]
pub enum Key {
    Context,
    Id,
    Type,
    Comment,
    CommandType,
    Contents,
    Description,
    DisplayName,
    ElementSchema,
    EnumValue,
    EnumValues,
    Extends,
    Fields,
    MapKey,
    MapValue,
    MaxMultiplicity,
    MinMultiplicity,
    Name,
    Properties,
    Request,
    Response,
    Schema,
    Schemas,
    Target,
    Unit,
    ValueSchema,
    Writable,
}

impl Key {
    /// Its text.
    pub fn text(self) -> &'static str
        ensures { result.now ≡ key_text self }
    {
        match self {
            Key::Context => "@context",
            Key::Id => "@id",
            Key::Type => "@type",
            Key::Comment => "comment",
            Key::CommandType => "commandType",
            Key::Contents => "contents",
            Key::Description => "description",
            Key::DisplayName => "displayName",
            Key::ElementSchema => "elementSchema",
            Key::EnumValue => "enumValue",
            Key::EnumValues => "enumValues",
            Key::Extends => "extends",
            Key::Fields => "fields",
            Key::MapKey => "mapKey",
            Key::MapValue => "mapValue",
            Key::MaxMultiplicity => "maxMultiplicity",
            Key::MinMultiplicity => "minMultiplicity",
            Key::Name => "name",
            Key::Properties => "properties",
            Key::Request => "request",
            Key::Response => "response",
            Key::Schema => "schema",
            Key::Schemas => "schemas",
            Key::Target => "target",
            Key::Unit => "unit",
            Key::ValueSchema => "valueSchema",
            Key::Writable => "writable",
        }
    }
}
