//! Equal patches in memory of their own.

ghost use Rattle.std.specs.Prelude.{◌≡◌, IfOk};

use crate::patch::{Op, OpKind, Patch};
use dt_base::{List, OutOfMemory, Text};
use std::alloc::Global;

impl Patch {
    /// An equal patch. Fails only for want of memory.
    pub fn copy(&self, alloc: Global) -> Result<Patch, OutOfMemory>
        ensures { IfOk result (λ patch. patch ≡ self.now) }
    {
        let mut ops = Vec::with_capacity(alloc, self.ops.len())?;
        for op in self.ops.as_slice() {
            ops.push(op.copy(alloc)?)?;
        }
        Ok(Patch {
            ops: List::from_vec(ops),
        })
    }
}

impl Op {
    /// An equal operation. Fails only for want of memory.
    pub fn copy(&self, alloc: Global) -> Result<Op, OutOfMemory>
        ensures { IfOk result (λ op. op ≡ self.now) }
    {
        let kind = self.kind.copy(alloc)?;
        let path = copy_path(alloc, self.path.as_slice())?;
        Ok(Op {
            kind,
            path: List::from_vec(path),
        })
    }
}

impl OpKind {
    /// An equal kind. Fails only for want of memory.
    pub fn copy(&self, alloc: Global) -> Result<OpKind, OutOfMemory>
        ensures { IfOk result (λ kind. kind ≡ self.now) }
    {
        match self {
            OpKind::Add(value) => {
                let value = value.copy(alloc)?;
                Ok(OpKind::Add(value))
            }
            OpKind::Replace(value) => {
                let value = value.copy(alloc)?;
                Ok(OpKind::Replace(value))
            }
            OpKind::Remove => Ok(OpKind::Remove),
        }
    }
}

/// An equal path.
fn copy_path(alloc: Global, path: &[Text]) -> Result<Vec<Text>, OutOfMemory>
    ensures { IfOk result (λ copies. copies.items ≡ path.now) }
{
    let mut copies = Vec::with_capacity(alloc, path.len())?;
    for part in path {
        copies.push(part.copy(alloc)?)?;
    }
    Ok(copies)
}
