//! The canonical text of DTDL v2 interfaces, printed from their records without a tree.
#![tactic(auto)]

mod contents;
mod declared;
mod elements;
mod enums;
mod heads;
mod interfaces;
mod kinds;
mod localized;
mod marks;
mod named;
mod parents;
mod schemas;
mod sets;
mod sorting;
mod texts;

pub use interfaces::push_interface;
pub use sets::push_set;
