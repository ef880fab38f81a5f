//! What no session can ask of `twin_value`, the twins and relationships that its calls give, and copies of what a graph is asked and
//! answers, through the public calls. They stand here, since a crate with tests of its own is proved twice.
#![tactic(auto)]

#[cfg(test)]
mod answers;
#[cfg(test)]
mod asks;
#[cfg(test)]
mod bodies;
#[cfg(test)]
mod made;
#[cfg(test)]
mod unasked;
