use dt_base::{List, Text};
use json_decimal::Decimal;

/// A JSON value, without where its parts stand in the text. RFC 8259, section 3.
///
/// A tree that was read from a text nests at most 64 deep. One that a caller builds may nest deeper, and `copy`, `print`,
/// `sorted`, `reads_back` and its end of life go down into it by calls, one inside the other, as deep as it nests: no
/// proof says that the stack has room for them.
#[derive(Debug, Drop)]
#[cycle(tree)]
pub enum Tree {
    /// `null`.
    Null,
    /// `true` or `false`.
    Bool(bool),
    /// A number (RFC 8259, section 6), exact.
    Number(Decimal),
    /// A string (RFC 8259, section 7).
    Text(Text),
    /// An array (RFC 8259, section 5), its values in text order.
    List(List<Tree>),
    /// An object (RFC 8259, section 4), its members in text order.
    Members(List<Member>),
}

/// A member of an object: a key and its value.
#[derive(Debug, Drop)]
#[cycle(tree)]
pub struct Member {
    pub key: Text,
    pub value: Tree,
}

// Where a text is read, its tree takes most of the memory.
const _: () = prove!(size_of::<Tree>() == 40);

const _: () = prove!(size_of::<Member>() == 72);
