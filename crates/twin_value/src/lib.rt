//! Twins and relationships as values: which bodies have a breach, and what the others tell.
#![tactic(auto)]

mod code;
mod contents;
mod copies;
mod end;
mod fit;
mod gather;
mod ids;
mod index;
mod judge;
mod keys;
mod laws;
mod length;
mod library;
mod link;
mod names;
mod outer;
mod part;
mod print;
mod role;
mod shapes;
mod twin;
mod walk;

pub use code::BodyCode;
pub use copies::copy_rel;
pub use end::BodyEnd;
pub use fit::fit_value;
pub use ids::{is_model_id, is_twin_id};
pub use laws::{one_first_breach, one_first_link_breach};
pub use length::{left_after_link, left_after_twin};
pub use link::{Relationship, read_rel};
pub use outer::{outer_link_breach, outer_twin_breach};
pub use part::read_part;
pub use print::{print_part, print_rel, print_twin};
pub use twin::{Twin, read_twin, read_values};
