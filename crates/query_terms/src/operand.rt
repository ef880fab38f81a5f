//! What conditions compare.

ghost use Rattle.std.specs.Prelude.{◌≡◌, IfOk};

use crate::copies::copy_texts;
use dt_base::{List, OutOfMemory, Text};
use json_decimal::Decimal;
use std::alloc::Global;

/// A value that a query writes out.
#[derive(Debug, Drop)]
pub enum Literal {
    Number(Decimal),
    Word(Text),
    Truth(bool),
}

impl Literal {
    /// An equal literal in memory of its own.
    pub fn copy(&self, alloc: Global) -> Result<Literal, OutOfMemory>
        ensures { IfOk result (λ copy. copy ≡ self.now) }
    {
        match self {
            Literal::Number(number) => Ok(Literal::Number(*number)),
            Literal::Word(word) => Ok(Literal::Word(word.copy(alloc)?)),
            Literal::Truth(truth) => Ok(Literal::Truth(*truth)),
        }
    }
}

/// What stands on a side of a comparison.
#[derive(Debug, Drop)]
pub enum Operand {
    /// The value at a path: an alias and then the names of members, or only the names of members where the
    /// query's source has no alias.
    Path(List<Text>),
    Value(Literal),
}

impl Operand {
    /// An equal operand in memory of its own.
    pub fn copy(&self, alloc: Global) -> Result<Operand, OutOfMemory>
        ensures { IfOk result (λ copy. copy ≡ self.now) }
    {
        match self {
            Operand::Path(path) => Ok(Operand::Path(copy_texts(alloc, path.as_slice())?)),
            Operand::Value(literal) => Ok(Operand::Value(literal.copy(alloc)?)),
        }
    }
}

/// How two operands are compared.
#[derive(Clone, Copy, Debug, PartialEq, Eq)]
pub enum Compare {
    Same,
    Other,
    Less,
    Greater,
    LessOrSame,
    GreaterOrSame,
}

impl Compare {
    /// The same comparison.
    pub fn copy(&self) -> Compare
        ensures { result ≡ self.now }
    {
        *self
    }
}
