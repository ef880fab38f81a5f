//! Schemas (DTDL v2, "Schemas").

ghost use Rattle.std.specs.Prelude.{◌≡◌, IfOk};

use crate::boxed::Boxed;
use crate::common::Common;
use crate::copies::copy_all;
use crate::enumeration::EnumEntry;
use crate::primitive::Primitive;
use dt_base::names::{Dtmi, Name};
use dt_base::{List, OutOfMemory};
use std::alloc::Global;

/// A schema (DTDL v2, "Schemas").
#[derive(Debug, Drop)]
#[cycle(schema)]
pub enum Schema {
    /// A primitive schema (DTDL v2, "Primitive schemas").
    Primitive(Primitive),
    /// The schema of this identifier, which is declared elsewhere.
    Named(Dtmi),
    /// An array whose elements are of one schema (DTDL v2, "Array").
    Array {
        common: Boxed<Common>,
        element: Boxed<Schema>,
    },
    /// An enumeration, of texts or else of integers (DTDL v2, "Enum").
    Enumeration {
        common: Boxed<Common>,
        of_text: bool,
        values: List<EnumEntry>,
    },
    /// A map from texts to values of one schema (DTDL v2, "Map").
    Map {
        common: Boxed<Common>,
        key: Boxed<Payload>,
        value: Boxed<Payload>,
    },
    /// An object with these fields, in the order of its document (DTDL v2, "Object").
    Object {
        common: Boxed<Common>,
        fields: List<Payload>,
    },
}

/// A name with a schema: a field of an object (DTDL v2, "Field"), the key or the value of a map ("MapKey",
/// "MapValue"), or what a command takes or gives ("CommandPayload").
#[derive(Debug, Drop)]
#[cycle(schema)]
pub struct Payload {
    pub name: Name,
    pub common: Common,
    pub schema: Schema,
}

impl Schema {
    /// An equal schema in memory of its own.
    #[cycle(schema_copies)]
    pub fn copy(&self, alloc: Global) -> Result<Schema, OutOfMemory>
        ensures { IfOk result (λ copy. copy ≡ self.now) }
    {
        match self {
            Schema::Primitive(primitive) => Ok(Schema::Primitive(*primitive)),
            Schema::Named(id) => {
                let id = id.copy(alloc)?;
                Ok(Schema::Named(id))
            }
            Schema::Array { common, element } => {
                let common = copy_common(alloc, common)?;
                let element = Boxed::new(alloc, element.get().copy(alloc)?)?;
                Ok(Schema::Array { common, element })
            }
            Schema::Enumeration {
                common,
                of_text,
                values,
            } => copy_enumeration(alloc, common, *of_text, values),
            Schema::Map { common, key, value } => {
                let common = copy_common(alloc, common)?;
                let key = Boxed::new(alloc, key.get().copy(alloc)?)?;
                let value = Boxed::new(alloc, value.get().copy(alloc)?)?;
                Ok(Schema::Map { common, key, value })
            }
            Schema::Object { common, fields } => {
                let common = copy_common(alloc, common)?;
                let fields = copy_payloads(alloc, fields.as_slice())?;
                Ok(Schema::Object { common, fields })
            }
        }
    }
}

impl Payload {
    /// An equal payload in memory of its own.
    #[cycle(schema_copies)]
    pub fn copy(&self, alloc: Global) -> Result<Payload, OutOfMemory>
        ensures { IfOk result (λ copy. copy ≡ self.now) }
    {
        let name = self.name.copy(alloc)?;
        let common = self.common.copy(alloc)?;
        let schema = self.schema.copy(alloc)?;
        Ok(Payload {
            name,
            common,
            schema,
        })
    }
}

/// A list of equal payloads.
#[cycle(schema_copies)]
fn copy_payloads(alloc: Global, payloads: &[Payload]) -> Result<List<Payload>, OutOfMemory>
    ensures { IfOk result (λ copies. copies ≡ payloads.now) }
{
    let mut copies = Vec::with_capacity(alloc, payloads.len())?;
    for payload in payloads {
        copies.push(payload.copy(alloc)?)?;
    }
    Ok(List::from_vec(copies))
}

/// What is said of a schema, equal and in a box of its own.
fn copy_common(alloc: Global, common: &Boxed<Common>) -> Result<Boxed<Common>, OutOfMemory>
    ensures { IfOk result (λ copy. copy ≡ common.now) }
{
    let copy = common.get().copy(alloc)?;
    Boxed::new(alloc, copy)
}

/// An enumeration with equal parts.
fn copy_enumeration(
    alloc: Global,
    common: &Boxed<Common>,
    of_text: bool,
    values: &List<EnumEntry>,
) -> Result<Schema, OutOfMemory>
    ensures { IfOk result (λ copy. copy ≡ Schema.Enumeration common.now of_text values.now) }
{
    let common = copy_common(alloc, common)?;
    let values = copy_all(alloc, values.as_slice())?;
    Ok(Schema::Enumeration {
        common,
        of_text,
        values,
    })
}
