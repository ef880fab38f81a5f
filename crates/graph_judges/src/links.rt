//! The asks that bring relationships to a graph, judged by what it holds: what is kept of the relationship that comes, or why
//! it is refused.

mod contents;
mod counting;
mod limits;
mod new_link;
mod patching;
mod putting;
mod source;
mod targets;

pub use new_link::NewLink;
pub use patching::judged_rel_patch;
pub use putting::judged_rel;
