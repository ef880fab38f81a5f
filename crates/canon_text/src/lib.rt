//! The canonical text of DTDL v2 interfaces: a function of what they declare, whatever the text that declared them.
#![tactic(auto)]

mod common;
mod contents;
mod enums;
mod interfaces;
mod kinds;
mod laws;
mod numbers;
mod own_ids;
mod parts;
mod schemas;
mod set_texts;
mod sorting;

pub use interfaces::{canon_interface, canon_tree};
pub use laws::{one_set_tree, one_tree, same_set_text, same_text};
pub use numbers::{of_integer, of_size};
pub use own_ids::{each_identified, identified};
pub use set_texts::{canon, canon_set_tree};
