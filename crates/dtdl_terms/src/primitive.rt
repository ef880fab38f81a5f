//! Primitive schemas (DTDL v2, "Primitive schemas").

ghost use Rattle.std.specs.Prelude.{◌≡◌, MatchOption};
ghost use Rattle.dtdl_terms.specs.declared.primitive.Primitive.{Primitive};
ghost use Rattle.dtdl_terms.specs.Primitives.{primitive_name};

/// A primitive schema (DTDL v2, "Primitive schemas").
#[derive(Clone, Copy, Debug, PartialEq, Eq)]
pub enum Primitive {
    Boolean,
    Date,
    DateTime,
    Double,
    Duration,
    Float,
    Integer,
    Long,
    Str,
    Time,
}

impl Primitive {
    /// Its name (DTDL v2, "Primitive schemas").
    pub fn text(self) -> &'static str
        ensures { result.now ≡ primitive_name self }
    {
        match self {
            Primitive::Boolean => "boolean",
            Primitive::Date => "date",
            Primitive::DateTime => "dateTime",
            Primitive::Double => "double",
            Primitive::Duration => "duration",
            Primitive::Float => "float",
            Primitive::Integer => "integer",
            Primitive::Long => "long",
            Primitive::Str => "string",
            Primitive::Time => "time",
        }
    }
}

/// The primitive schema of this name (DTDL v2, "Primitive schemas"), where there is one. Small and capital
/// letters are told apart.
pub fn primitive_named(text: &str) -> Option<Primitive>
    ensures { MatchOption result ((p : Primitive) → primitive_name p ≡ text.now → ⊥) (λ p. primitive_name p ≡ text.now) }
{
    // Those that models have most stand first.
    match text {
        "double" => Some(Primitive::Double),
        "integer" => Some(Primitive::Integer),
        "string" => Some(Primitive::Str),
        "boolean" => Some(Primitive::Boolean),
        "dateTime" => Some(Primitive::DateTime),
        "float" => Some(Primitive::Float),
        "long" => Some(Primitive::Long),
        "date" => Some(Primitive::Date),
        "duration" => Some(Primitive::Duration),
        "time" => Some(Primitive::Time),
        _ => None,
    }
}
