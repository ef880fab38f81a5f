//! Worked rows and outside vectors of numbers, of records that are read and of documents in batches, through the public calls of
//! `json_decimal`, `model_read` and `documents`. They stand here, since a crate with tests of its own is proved twice.
#![tactic(auto)]

#[cfg(test)]
mod batches;
#[cfg(test)]
mod decimals;
#[cfg(test)]
mod records;
