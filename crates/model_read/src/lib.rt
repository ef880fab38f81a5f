//! Reading a document that breaks no local rule into the records of its elements.
#![tactic(auto)]

mod common;
mod contents;
mod end;
mod enums;
mod interfaces;
mod kinds;
mod laws;
mod localized;
mod parts;
mod places;
mod read;
mod schemas;
mod semantics;
mod texts;

pub use end::LocalEnd;
pub use laws::{declaration_is_there, have_declarations, one_declaration, within_limits};
pub use local_rules::LocalRule;
pub use read::read_interfaces;
