//! The interfaces of documents without faults. A document that is a list is read batch by batch, so that no value of the whole
//! document is in memory at any time.

mod batches;
mod parts;
mod read;

pub use read::faultless_interfaces;
