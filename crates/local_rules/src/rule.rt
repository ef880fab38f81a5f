//! The local rules by their codes.

ghost use Rattle.std.specs.Prelude.{◌≡◌};
ghost use Rattle.local_rules.specs.Codes.{rule_code, rule_number};
ghost use Rattle.local_rules.specs.Machinery.Firsts.{earlier};

/// A rule that a place of one document can break, in the order in which rules are named at one place. What each
/// forbids is said by the definition of its name in specs/ and in docs/profile.md.
#[derive(Clone, Copy, Debug, PartialEq, Eq)]
pub enum LocalRule {
    WrongKind,
    UnknownKey,
    MissingKey,
    BadContext,
    BadType,
    BadSemanticType,
    BadId,
    ReservedId,
    LongInterfaceId,
    LongElementId,
    BadName,
    LongDisplayName,
    LongDescription,
    LongComment,
    BadLanguage,
    TooManyContents,
    TooManyParents,
    RepeatedParent,
    DuplicateName,
    TooManyFields,
    TooManyEnumValues,
    DuplicateField,
    DuplicateEnumName,
    DuplicateEnumValue,
    BadValueSchema,
    BadEnumValue,
    BadMapKey,
    BadMultiplicity,
    BadCommandType,
    BadUnit,
    UnknownSchema,
    RepeatedId,
    TooDeep,
    ArrayInProperty,
}

impl LocalRule {
    /// The code of the rule, as it is printed.
    pub fn text(&self) -> &'static str
        ensures { result.now ≡ rule_code self.now }
    {
        match self {
            LocalRule::WrongKind => "WrongKind",
            LocalRule::UnknownKey => "UnknownKey",
            LocalRule::MissingKey => "MissingKey",
            LocalRule::BadContext => "BadContext",
            LocalRule::BadType => "BadType",
            LocalRule::BadSemanticType => "BadSemanticType",
            LocalRule::BadId => "BadId",
            LocalRule::ReservedId => "ReservedId",
            LocalRule::LongInterfaceId => "LongInterfaceId",
            LocalRule::LongElementId => "LongElementId",
            LocalRule::BadName => "BadName",
            LocalRule::LongDisplayName => "LongDisplayName",
            LocalRule::LongDescription => "LongDescription",
            LocalRule::LongComment => "LongComment",
            LocalRule::BadLanguage => "BadLanguage",
            LocalRule::TooManyContents => "TooManyContents",
            LocalRule::TooManyParents => "TooManyParents",
            LocalRule::RepeatedParent => "RepeatedParent",
            LocalRule::DuplicateName => "DuplicateName",
            LocalRule::TooManyFields => "TooManyFields",
            LocalRule::TooManyEnumValues => "TooManyEnumValues",
            LocalRule::DuplicateField => "DuplicateField",
            LocalRule::DuplicateEnumName => "DuplicateEnumName",
            LocalRule::DuplicateEnumValue => "DuplicateEnumValue",
            LocalRule::BadValueSchema => "BadValueSchema",
            LocalRule::BadEnumValue => "BadEnumValue",
            LocalRule::BadMapKey => "BadMapKey",
            LocalRule::BadMultiplicity => "BadMultiplicity",
            LocalRule::BadCommandType => "BadCommandType",
            LocalRule::BadUnit => "BadUnit",
            LocalRule::UnknownSchema => "UnknownSchema",
            LocalRule::RepeatedId => "RepeatedId",
            LocalRule::TooDeep => "TooDeep",
            LocalRule::ArrayInProperty => "ArrayInProperty",
        }
    }

    /// Its number in the order in which rules are named at one place.
    fn number(self) -> u8
        ensures { result ≡ rule_number self }
    {
        match self {
            LocalRule::WrongKind => 1,
            LocalRule::UnknownKey => 2,
            LocalRule::MissingKey => 3,
            LocalRule::BadContext => 4,
            LocalRule::BadType => 5,
            LocalRule::BadSemanticType => 6,
            LocalRule::BadId => 7,
            LocalRule::ReservedId => 8,
            LocalRule::LongInterfaceId => 9,
            LocalRule::LongElementId => 10,
            LocalRule::BadName => 11,
            LocalRule::LongDisplayName => 12,
            LocalRule::LongDescription => 13,
            LocalRule::LongComment => 14,
            LocalRule::BadLanguage => 15,
            LocalRule::TooManyContents => 16,
            LocalRule::TooManyParents => 17,
            LocalRule::RepeatedParent => 18,
            LocalRule::DuplicateName => 19,
            LocalRule::TooManyFields => 20,
            LocalRule::TooManyEnumValues => 21,
            LocalRule::DuplicateField => 22,
            LocalRule::DuplicateEnumName => 23,
            LocalRule::DuplicateEnumValue => 24,
            LocalRule::BadValueSchema => 25,
            LocalRule::BadEnumValue => 26,
            LocalRule::BadMapKey => 27,
            LocalRule::BadMultiplicity => 28,
            LocalRule::BadCommandType => 29,
            LocalRule::BadUnit => 30,
            LocalRule::UnknownSchema => 31,
            LocalRule::RepeatedId => 32,
            LocalRule::TooDeep => 33,
            LocalRule::ArrayInProperty => 34,
        }
    }
}

/// The one of two rules that is named first, where there is one.
pub fn earlier(one: Option<LocalRule>, other: Option<LocalRule>) -> Option<LocalRule>
    ensures { result ≡ earlier one other }
{
    match (one, other) {
        (Some(first), Some(second)) if second.number() < first.number() => other,
        (Some(_), _) => one,
        (None, _) => other,
    }
}
