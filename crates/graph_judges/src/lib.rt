//! Whether a graph takes what is asked to be put into it: twins and their components (`twins`) and relationships (`links`),
//! each with the refusal where it does not; and what fits the models that there are (`fits`).
#![tactic(auto)]

pub mod fits;
pub mod links;
pub mod twins;
