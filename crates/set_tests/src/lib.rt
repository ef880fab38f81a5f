//! The calls of `extend_resolve`, `model_life` and `resolved_table` on sets of interfaces, of which a proof knows that they break no rule,
//! and those of `dtdl_terms` on sets. They stand here, since a crate with tests of its own is proved twice.
#![tactic(auto)]

#[cfg(test)]
mod families;
#[cfg(test)]
mod lone;
#[cfg(test)]
mod terms;
