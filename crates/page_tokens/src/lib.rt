//! What the parts of paths and the tokens of pages name: ids of twins and relationships, percent-encoded.
#![tactic(auto)]

mod named;
mod tokens;

pub use named::id_named;
pub use tokens::ids_of_token;
