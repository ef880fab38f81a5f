//! Contents of interfaces (DTDL v2, "Interface", the property `contents`).

ghost use Rattle.std.specs.Prelude.{◌≡◌, IfOk};

use crate::boxed::Boxed;
use crate::common::Common;
use crate::options::{copy_id, copy_name};
use crate::schema::{Payload, Schema};
use dt_base::names::{Dtmi, Name};
use dt_base::{List, OutOfMemory};
use std::alloc::Global;

/// A content of an interface (DTDL v2, "Interface", the property `contents`), or a property of a
/// relationship (DTDL v2, "Relationship", the property `properties`).
#[derive(Debug, Drop)]
#[cycle(content)]
pub struct Content {
    pub name: Name,
    pub common: Common,
    pub kind: ContentKind,
}

/// What a content is, with what only contents of its kind have.
#[derive(Debug, Drop)]
#[cycle(content)]
pub enum ContentKind {
    /// Data that a twin emits (DTDL v2, "Telemetry").
    Telemetry {
        schema: Schema,
        /// The semantic type (DTDL v2, "Semantic types").
        semantic: Option<Name>,
        /// The unit (DTDL v2, "Units").
        unit: Option<Name>,
    },
    /// State of a twin (DTDL v2, "Property").
    Property {
        schema: Schema,
        /// The semantic type (DTDL v2, "Semantic types").
        semantic: Option<Name>,
        /// The unit (DTDL v2, "Units").
        unit: Option<Name>,
        writable: bool,
    },
    /// An operation of a twin (DTDL v2, "Command").
    Command {
        request: Option<Boxed<Payload>>,
        response: Option<Boxed<Payload>>,
    },
    /// A link to other twins (DTDL v2, "Relationship").
    Relationship {
        target: Option<Dtmi>,
        properties: List<Content>,
        /// The most links (DTDL v2, the property `maxMultiplicity`).
        max: Option<u32>,
        writable: bool,
    },
    /// An interface that is a part of this one (DTDL v2, "Component").
    Component {
        of: Dtmi,
    },
}

impl Content {
    /// An equal content in memory of its own.
    #[cycle(content_copies)]
    pub fn copy(&self, alloc: Global) -> Result<Content, OutOfMemory>
        ensures { IfOk result (λ copy. copy ≡ self.now) }
    {
        let name = self.name.copy(alloc)?;
        let common = self.common.copy(alloc)?;
        let kind = self.kind.copy(alloc)?;
        Ok(Content { name, common, kind })
    }
}

impl ContentKind {
    /// An equal kind in memory of its own.
    #[cycle(content_copies)]
    pub fn copy(&self, alloc: Global) -> Result<ContentKind, OutOfMemory>
        ensures { IfOk result (λ copy. copy ≡ self.now) }
    {
        match self {
            ContentKind::Telemetry {
                schema,
                semantic,
                unit,
            } => copy_telemetry(alloc, schema, semantic, unit),
            ContentKind::Property {
                schema,
                semantic,
                unit,
                writable,
            } => copy_property(alloc, schema, semantic, unit, *writable),
            ContentKind::Command { request, response } => copy_command(alloc, request, response),
            ContentKind::Relationship {
                target,
                properties,
                max,
                writable,
            } => {
                let target = copy_id(alloc, target)?;
                let properties = copy_contents(alloc, properties.as_slice())?;
                Ok(ContentKind::Relationship {
                    target,
                    properties,
                    max: *max,
                    writable: *writable,
                })
            }
            ContentKind::Component { of } => Ok(ContentKind::Component {
                of: of.copy(alloc)?,
            }),
        }
    }
}

/// A list of equal contents.
#[cycle(content_copies)]
pub fn copy_contents(alloc: Global, contents: &[Content]) -> Result<List<Content>, OutOfMemory>
    ensures { IfOk result (λ copies. copies ≡ contents.now) }
{
    let mut copies = Vec::with_capacity(alloc, contents.len())?;
    for content in contents {
        copies.push(content.copy(alloc)?)?;
    }
    Ok(List::from_vec(copies))
}

/// A telemetry with equal parts.
fn copy_telemetry(
    alloc: Global,
    schema: &Schema,
    semantic: &Option<Name>,
    unit: &Option<Name>,
) -> Result<ContentKind, OutOfMemory>
    ensures { IfOk result (λ copy. copy ≡ ContentKind.Telemetry schema.now semantic.now unit.now) }
{
    let semantic = copy_name(alloc, semantic)?;
    let unit = copy_name(alloc, unit)?;
    let schema = schema.copy(alloc)?;
    Ok(ContentKind::Telemetry {
        schema,
        semantic,
        unit,
    })
}

/// A property with equal parts.
fn copy_property(
    alloc: Global,
    schema: &Schema,
    semantic: &Option<Name>,
    unit: &Option<Name>,
    writable: bool,
) -> Result<ContentKind, OutOfMemory>
    ensures { IfOk result (λ copy. copy ≡ ContentKind.Property schema.now semantic.now unit.now writable) }
{
    let semantic = copy_name(alloc, semantic)?;
    let unit = copy_name(alloc, unit)?;
    let schema = schema.copy(alloc)?;
    Ok(ContentKind::Property {
        schema,
        semantic,
        unit,
        writable,
    })
}

/// A command with equal parts.
fn copy_command(
    alloc: Global,
    request: &Option<Boxed<Payload>>,
    response: &Option<Boxed<Payload>>,
) -> Result<ContentKind, OutOfMemory>
    ensures { IfOk result (λ copy. copy ≡ ContentKind.Command request.now response.now) }
{
    let request = copy_payload(alloc, request)?;
    let response = copy_payload(alloc, response)?;
    Ok(ContentKind::Command { request, response })
}

/// An equal payload, where there is one.
fn copy_payload(
    alloc: Global,
    payload: &Option<Boxed<Payload>>,
) -> Result<Option<Boxed<Payload>>, OutOfMemory>
    ensures { IfOk result (λ copy. copy ≡ payload.now) }
{
    match payload {
        Some(payload) => {
            let copy = payload.get().copy(alloc)?;
            Ok(Some(Boxed::new(alloc, copy)?))
        }
        None => Ok(None),
    }
}
