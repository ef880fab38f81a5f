//! Patches as plain data.

use dt_base::{List, Text};
use json_tree::Tree;

/// A JSON Patch (RFC 6902): operations, which are applied one after another.
#[derive(Debug, Drop)]
pub struct Patch {
    pub ops: List<Op>,
}

/// One operation on the member at the end of a path (RFC 6902, section 4).
#[derive(Debug, Drop)]
pub struct Op {
    pub kind: OpKind,
    /// The reference tokens of the pointer (RFC 6901) to the member, unescaped.
    pub path: List<Text>,
}

/// What is done to a member.
#[derive(Debug, Drop)]
pub enum OpKind {
    /// The member is set, whether it is there or not (RFC 6902, section 4.1).
    Add(Tree),
    /// The member, which has to be there, is set (RFC 6902, section 4.3).
    Replace(Tree),
    /// The member, which has to be there, is taken out (RFC 6902, section 4.2).
    Remove,
}
