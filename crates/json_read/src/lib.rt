//! JSON texts (RFC 8259), read into trees.
#![tactic(auto)]

mod fault;
mod keys;
mod laws;
mod places;
mod reading;
mod scan;
mod strings;

pub use fault::JsonFault;
pub use laws::{fault_or_value, one_fault, one_printed, one_value, printed_again, value_or_fault};
pub use reading::{pointer_in, read};
