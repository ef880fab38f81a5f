//! Worked rows of HTTP messages and sessions, through the public calls of `http_ends` and `http_session`. They stand here,
//! since a crate with tests of its own is proved twice.
#![tactic(auto)]

#[cfg(test)]
mod messages;
#[cfg(test)]
mod sessions;
#[cfg(test)]
mod sources;
