//! JSON values (RFC 8259) as trees: their texts, what stands under a key, places in them, and pointers to these; and buckets
//! that tell apart the texts of a list, as keys are.
#![tactic(auto)]

mod buckets;
mod copies;
mod evaluation;
mod laws;
mod members;
mod places;
mod pointers;
mod printing;
mod sorting;
mod tree;

pub use buckets::Buckets;
pub use evaluation::at;
pub use laws::{one_pointer, reads_back, reads_back_before_spaces};
pub use members::{entries_in, is_same, members_in, text_at, text_in, value_at, value_in};
pub use places::Place;
pub use pointers::{Pointer, pointer_of};
pub use printing::{print, push_quoted};
pub use sorting::sorted;
pub use tree::{Member, Tree};
