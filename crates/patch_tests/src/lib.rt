//! Worked rows of patches, through the public calls of `twin_patch`, and copies of what `json_tree` tells of places. They
//! stand here, since a crate with tests of its own is proved twice.
#![tactic(auto)]

#[cfg(test)]
mod places;
#[cfg(test)]
mod rows;
