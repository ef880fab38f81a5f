//! Worked rows of the lowest crates, through the public calls of `dt_base`, `dt_base::names` and `query_terms`. They
//! stand here, since a crate with tests of its own is proved twice.
#![tactic(auto)]

#[cfg(test)]
mod names;
#[cfg(test)]
mod queries;
#[cfg(test)]
mod streams;
