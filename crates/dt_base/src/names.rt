//! Names of contents and digital twin model identifiers (DTMIs), as the Digital Twins Definition
//! Language, version 2, has them, read with the exact fault of what is none.

mod dtmi;
mod fault;
mod name;
mod walk;

pub use dtmi::{Dtmi, has_dtmi_form, is_reserved_id, order, same_path};
pub use fault::NameFault;
pub use name::{Name, is_name};
