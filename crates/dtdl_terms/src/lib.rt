//! The elements of the Digital Twins Definition Language, version 2, as plain data: interfaces with their
//! contents and schemas, and where an interface stands in its document.
#![tactic(auto)]

mod boxed;
mod common;
mod content;
mod copies;
mod enumeration;
mod interface;
mod laws;
mod limit;
mod model_set;
mod options;
mod primitive;
mod resolved;
mod schema;
mod spot;
mod uploaded;

pub use boxed::Boxed;
pub use common::{Common, Entry, Localized};
pub use content::{Content, ContentKind};
pub use enumeration::{EnumEntry, EnumValue};
pub use interface::Interface;
pub use laws::{same_as_itself, same_both_ways, same_throughout, same_under_a_name};
pub use limit::Limit;
pub use model_set::ModelSet;
pub use primitive::{Primitive, primitive_named};
pub use resolved::{NamedIn, PartOf, Resolved, ResolvedContent};
pub use schema::{Payload, Schema};
pub use spot::{Spot, spot_pointer};
pub use uploaded::Uploaded;
