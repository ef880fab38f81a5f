//! An ordered map of two levels: entries in the order of a text and a further key, looked up by the two parts as
//! they are, without copying them into one key.
#![tactic(auto)]

mod entries;
mod row;
mod table;

pub use entries::Entries;
pub use table::Table;
