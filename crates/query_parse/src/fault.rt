//! Why a text is no query that may be asked.

ghost use Rattle.std.specs.Prelude.{◌≡◌};
ghost use Rattle.query_parse.specs.declared.fault.QueryFault.TheVariants as faults;

use thiserror::Error;

/// Why a text is no query that may be asked. They are decided in the order in which they stand here, `OutOfMemory`
/// last: of several that hold the first is given.
#[derive(Debug, Drop, PartialEq, Eq, Error)]
pub enum QueryFault {
    /// The text has more than 8,192 bytes.
    #[error("the query has more than 8192 bytes")]
    TooLong,
    /// The text is no query by the grammar. `at` is the first byte of the first token such that no query's tokens
    /// begin with those up to it, or the byte at which no token begins, where that comes first; or else the length
    /// of the text.
    #[error("wrong byte {at}")]
    Byte { at: u32 },
    /// There are more than 5 joins.
    #[error("more than 5 joins")]
    TooManyJoins,
    /// Rows are given whole and there is a join.
    #[error("whole rows of joins")]
    StarWithJoin,
    /// The alias at this byte is that of an earlier FROM or JOIN, or the item's name at this byte that of an earlier
    /// item.
    #[error("a name stands twice, again at byte {at}")]
    TwiceAlias { at: u32 },
    /// The use of a name at this byte is the first of one that is not bound.
    #[error("an unknown alias at byte {at}")]
    UnknownAlias { at: u32 },
    /// There was no memory for the value.
    #[error("out of memory")]
    OutOfMemory,
}

impl From<dt_base::OutOfMemory> for QueryFault {
    ghost from_gives = { λ _ e. e ≡ faults.OutOfMemory };

    fn from(_error: dt_base::OutOfMemory) -> QueryFault {
        QueryFault::OutOfMemory
    }
}
