//! The asks that bring twins, judged: the twin that comes, or why the ask is refused.

mod body;
mod components;
mod fitting;
mod frozen;
mod limits;
mod marks;
mod models;
mod new_twin;
mod parts;
mod patching;
mod putting;
mod refusals;

pub use new_twin::NewTwin;
pub use parts::judged_part_patch;
pub use patching::judged_patch;
pub use putting::judged_put;
