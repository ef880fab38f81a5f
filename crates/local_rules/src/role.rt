//! What the places of a document are for.

/// The kinds of objects that have a table of members (DTDL v2, "Interface", "Telemetry", "Property", "Command",
/// "Relationship", "Component", "Command payload", "Array", "Enum", "Map", "Object"). A field, a map's key and a
/// map's value are payloads too.
#[derive(Clone, Copy, Debug, PartialEq, Eq)]
pub enum Element {
    Interface,
    Telemetry,
    Property,
    Command,
    Relationship,
    Component,
    Payload,
    Array,
    Enumeration,
    EnumEntry,
    Map,
    Object,
}

/// Where a member `@type` stands, which says what types it may name.
#[derive(Clone, Copy, Debug, PartialEq, Eq)]
pub enum Position {
    /// In an interface.
    Interface,
    /// In an entry of `contents`.
    Content,
    /// In an entry of a relationship's `properties`.
    Property,
    /// In a schema.
    Schema,
    /// In a payload or an enum entry, where any name may stand and declares nothing.
    Free,
}

/// What a payload describes.
#[derive(Clone, Copy, Debug, PartialEq, Eq)]
pub enum PayloadUse {
    /// What a command takes or gives.
    Command,
    /// The key of a map.
    MapKey,
    /// The value of a map.
    MapValue,
}

/// Where a schema stands.
#[derive(Clone, Copy, Debug, PartialEq, Eq)]
pub enum SchemaUse {
    /// In no other schema: of a telemetry, or of a command's request or response.
    Outer,
    /// In no other schema: of a property.
    Property,
    /// In another schema.
    Inner,
    /// In another schema, as the schema of a map's key.
    MapKey,
}

/// What the `valueSchema` of an enum asks of its values.
#[derive(Clone, Copy, Debug, PartialEq, Eq)]
pub enum ValueSchema {
    Integer,
    String,
    /// There is no `valueSchema`, or it is neither `integer` nor `string`.
    Neither,
}

/// Which text in several languages.
#[derive(Clone, Copy, Debug, PartialEq, Eq)]
pub enum Localized {
    DisplayName,
    Description,
}

/// What a place of an interface is for: which kind of value it wants, and which rules hold there. A place that is
/// under an unknown key, or under a value of a wrong kind, has no role.
#[derive(Clone, Copy, Debug, PartialEq, Eq)]
pub enum Role {
    Interface,
    /// An entry of `contents`.
    Content,
    /// An entry of a relationship's `properties`.
    RelationshipProperty,
    Payload { part: PayloadUse },
    /// An entry of an object schema's `fields`.
    Field,
    /// An entry of `enumValues`.
    EnumEntry { value_schema: ValueSchema },
    /// An entry of an interface's `schemas`.
    NamedSchema,
    Schema { part: SchemaUse },
    Contents,
    Schemas,
    Properties,
    Fields,
    EnumValues { value_schema: ValueSchema },
    Context,
    Type { position: Position },
    Extends,
    /// `displayName` or `description`.
    Localized { text: Localized },
    /// A member of one of these.
    LocalizedText { text: Localized },
    /// An entry of a list that is the value of `@type` or `@context`.
    ListedText,
    /// An entry of `extends`.
    Parent,
    /// The `@id` of an interface.
    InterfaceId,
    /// Any other `@id`.
    ElementId,
    /// The `target` of a relationship or the `schema` of a component.
    InterfaceReference,
    Comment,
    Name,
    CommandType,
    Unit,
    ValueSchema,
    Writable,
    MinMultiplicity,
    MaxMultiplicity,
    EnumValue { value_schema: ValueSchema },
    /// A member whose key is none of its object's.
    Unknown,
}

/// The kind of value that a role wants.
#[derive(Clone, Copy, Debug, PartialEq, Eq)]
pub enum Kind {
    Object,
    List,
    Text,
    TextOrList,
    TextOrObject,
    Truth,
    Number,
    NumberOrText,
    /// Nothing is asked: the key of the member is a fault already.
    Any,
}
