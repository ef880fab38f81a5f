//! JSON Patch (RFC 6902) on trees: reading the operations, and applying them to objects as finite maps.
#![tactic(auto)]

mod application;
mod base;
mod code;
mod copies;
mod draft;
mod entry;
mod laws;
mod merge;
mod patch;
mod paths;
mod reading;
mod word;

pub use application::{ApplyEnd, apply, apply_in_order};
pub use code::PatchCode;
pub use entry::PatchOf;
pub use laws::{one_answer, order_of_members, some_answer};
pub use patch::{Op, OpKind, Patch};
pub use reading::{PatchEnd, read_patch};
