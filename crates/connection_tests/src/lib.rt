//! Where connections come from, in memory and over a port of this machine, and what is asked over them, through the public
//! calls of `connections`, `sockets` and `http_client`. They stand here, since a crate with tests of its own is proved twice.
#![tactic(auto)]

#[cfg(test)]
mod asks;
#[cfg(test)]
mod memory;
#[cfg(test)]
mod network;
