//! What enumerations hold (DTDL v2, "Enum").

ghost use Rattle.std.specs.Prelude.{◌≡◌, IfOk};

use crate::common::Common;
use dt_base::names::Name;
use dt_base::{OutOfMemory, Text};
use std::alloc::Global;

/// The value of an entry of an enumeration (DTDL v2, "EnumValue", the property `enumValue`).
#[derive(Debug, Drop)]
pub enum EnumValue {
    Number(i32),
    Word(Text),
}

impl EnumValue {
    /// An equal value in memory of its own.
    pub fn copy(&self, alloc: Global) -> Result<EnumValue, OutOfMemory>
        ensures { IfOk result (λ copy. copy ≡ self.now) }
    {
        match self {
            EnumValue::Number(number) => Ok(EnumValue::Number(*number)),
            EnumValue::Word(word) => Ok(EnumValue::Word(word.copy(alloc)?)),
        }
    }
}

/// An entry of an enumeration (DTDL v2, "EnumValue").
#[derive(Debug, Drop)]
pub struct EnumEntry {
    pub name: Name,
    pub common: Common,
    pub value: EnumValue,
}

impl EnumEntry {
    /// An equal entry in memory of its own.
    pub fn copy(&self, alloc: Global) -> Result<EnumEntry, OutOfMemory>
        ensures { IfOk result (λ copy. copy ≡ self.now) }
    {
        let name = self.name.copy(alloc)?;
        let value = self.value.copy(alloc)?;
        let common = self.common.copy(alloc)?;
        Ok(EnumEntry {
            name,
            common,
            value,
        })
    }
}
