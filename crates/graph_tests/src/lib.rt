//! The edges of a graph beside a plain table of them, through the public calls of `rel_graph`. They stand here, since a crate
//! with tests of its own is proved twice.
#![tactic(auto)]

#[cfg(test)]
mod edges;
