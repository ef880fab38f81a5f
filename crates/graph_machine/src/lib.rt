//! The typed graph of digital twins as an object that answers one ask at a time.
#![tactic(auto)]

mod answering;
mod answers;
mod canon;
mod drop_model;
mod drop_rel;
mod drop_twin;
mod entering;
mod get_model;
mod get_part;
mod get_rel;
mod get_twin;
mod growing;
mod list_in;
mod list_models;
mod list_out;
mod looking;
mod machine;
mod mark;
mod object;
mod patch_part;
mod patch_rel;
mod patch_twin;
mod put_models;
mod put_rel;
mod put_twin;
mod query;
mod rows;
mod trees;
mod view;

pub use machine::{Counts, Machine};
