//! What is answered.

ghost use Rattle.std.specs.Prelude.{◌≡◌, IfOk};

use crate::refusal::Refusal;
use dt_base::{List, OutOfMemory};
use json_tree::Tree;
use std::alloc::Global;

/// The answer to an ask (this project's own).
#[derive(Debug, Drop)]
pub enum Reply {
    /// What was asked for.
    Body(Tree),
    /// What was made.
    Created(Tree),
    /// A canonical text, in bytes.
    Canon(List<u8>),
    /// It is done, and there is nothing to tell.
    Done,
    /// Nothing has changed, for this reason.
    Refused(Refusal),
}

impl Reply {
    /// An equal reply in memory of its own. Fails only for want of memory.
    pub fn copy(&self, alloc: Global) -> Result<Reply, OutOfMemory>
        ensures { IfOk result (λ copy. copy ≡ self.now) }
    {
        match self {
            Reply::Body(tree) => Ok(Reply::Body(tree.copy(alloc)?)),
            Reply::Created(tree) => Ok(Reply::Created(tree.copy(alloc)?)),
            Reply::Canon(text) => Ok(Reply::Canon(copy_bytes(alloc, text.as_slice())?)),
            Reply::Done => Ok(Reply::Done),
            Reply::Refused(refusal) => Ok(Reply::Refused(refusal.copy(alloc)?)),
        }
    }
}

/// Equal bytes in memory of their own.
fn copy_bytes(alloc: Global, bytes: &[u8]) -> Result<List<u8>, OutOfMemory>
    ensures { IfOk result (λ copy. copy ≡ bytes.now) }
{
    let mut copy = Vec::with_capacity(alloc, bytes.len())?;
    copy.extend_from_slice(bytes)?;
    Ok(List::from_vec(copy))
}
