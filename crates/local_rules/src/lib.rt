//! The local rules of documents: what each place of a document is for, and which rules it breaks.
#![tactic(auto)]

mod identifiers;
mod key;
mod kinds;
mod languages;
mod lists;
mod marks;
mod own;
mod quantities;
mod repeated;
mod role;
mod roles;
mod rule;
mod tables;
mod texts;
mod types;

pub use marks::{EntryMarks, Mark, MarkedRole};
pub use own::marked_rule;
pub use role::{Element, Localized, PayloadUse, Position, Role, SchemaUse, ValueSchema};
pub use roles::{element_of, type_of};
pub use rule::{LocalRule, earlier};
pub use types::{Further, first_further};
