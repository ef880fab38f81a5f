//! Exact decimal numbers of JSON.
#![tactic(auto)]

use thiserror::Error;

mod decimal;
mod digits;
mod halves;
mod order;
mod print;
mod read;
mod reading;

pub use decimal::Decimal;
pub use order::one_decimal;
pub use print::reads_back;
pub use read::{one_number, same_number};

/// Why bytes are not read as a decimal.
#[derive(Debug, Drop, Error, Clone, Copy, PartialEq, Eq)]
pub enum DecimalFault {
    /// The bytes are no number literal of RFC 8259, section 6, or have more than 38 digits before the
    /// exponent mark or more than 3 behind it.
    #[error("not a number literal")]
    NotALiteral,
    /// The exponent is outside -900 to 900, once trailing zeros are taken off the coefficient.
    #[error("the exponent is outside -900 to 900")]
    Range,
}
