//! Why a text is refused.

use thiserror::Error;

/// Why a text is no name, or no DTMI that may be used.
///
/// They are decided in the order in which they stand here, `OutOfMemory` last: of several that hold
/// the first is given.
#[derive(Debug, Drop, PartialEq, Eq, Error)]
pub enum NameFault {
    /// The text is empty.
    #[error("the text is empty")]
    Empty,
    /// A name has more than 64 bytes, or a DTMI more than 2,048.
    #[error("the text is too long")]
    TooLong,
    /// No such text begins with the bytes up to and with the one at `at`, and `at` is the least such.
    #[error("the byte at {at} is wrong")]
    BadByte {
        /// The position of the byte, counted from 0.
        at: u32,
    },
    /// The text is the beginning of such texts and none itself.
    #[error("the text ends too early")]
    Ends,
    /// The first wrong byte of a DTMI stands after its `;`.
    #[error("the version is no number from 1 to 999999999")]
    BadVersion,
    /// The text is a DTMI that begins with `dtmi:dtdl:` or `dtmi:standard:` (this project's own rule).
    #[error("the identifier is reserved")]
    Reserved,
    /// There was no memory for the value.
    #[error("out of memory")]
    OutOfMemory,
}
