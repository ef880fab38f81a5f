//! What is let go at many ways out.

use query_grammar::{Around, Built, Notes};

/// Lets go what was read up to a factor.
pub(crate) fn let_go(notes: Notes, around: Around) {
    drop((notes, around));
}

/// Lets go the terms and factors of a condition.
pub(crate) fn let_terms_go(before: Option<Built>, last: Built) {
    drop((before, last));
}
