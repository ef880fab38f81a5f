//! Tokens.

use crate::{Compare, Kind, PartKind};
use dt_base::Text;
use dt_base::names::Dtmi;
use json_decimal::Decimal;

/// What a name is: a keyword, or else an alias.
#[derive(Clone, Copy, Debug, PartialEq, Eq)]
pub enum Word {
    Select,
    Top,
    Count,
    From,
    Twins,
    Relationships,
    Join,
    Related,
    Where,
    As,
    And,
    Or,
    Not,
    In,
    Nin,
    True,
    False,
    /// The function that tests a path for a kind of value.
    Is(Kind),
    /// The function that tests a text for a part.
    Part(PartKind),
    OfModel,
    Alias,
}

/// A token that is always written alike.
#[derive(Clone, Copy, Debug, PartialEq, Eq)]
pub enum Mark {
    Star,
    Open,
    Close,
    Comma,
    Dot,
    OpenList,
    CloseList,
    Compare(Compare),
}

/// A token, and what it stands for.
#[derive(Debug, Drop)]
pub enum Token {
    /// A name, in the letters of the text, and which word it is in any letters.
    Name(Word, Text),
    Number(Decimal),
    /// The content of a text in quotes, and the identifier of a model that it is, if it is one.
    Text(Text, Option<Dtmi>),
    Mark(Mark),
}
