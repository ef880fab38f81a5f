//! The entries of a row, one after another.

ghost use Rattle.std.specs.Prelude.{length};
ghost use Rattle.std.specs.Iterator.{at_most};
ghost use Rattle.std.specs.Map.Iter.{TakesFirst, deref_pair};

use std::collections::btree_map::Range;
use std::marker::Model;

/// Entries in the order of their keys, which contracts see as the list of those that are left.
#[derive(Drop)]
pub struct Entries<'a, K, V> {
    pub(crate) only: Option<(&'a K, &'a V)>,
    pub(crate) rest: Range<'a, K, V>,
}

impl<'a, K, V> Model for Entries<'a, K, V> {
    ghost use Rattle.std.specs.Prelude.{List};

    ghost Value = { List (K × V) };

    ghost use Rattle.std.specs.Option.{option_map};
    ghost use Rattle.std.specs.List.{cons_option};
    ghost use Rattle.std.specs.Map.Iter.{deref_pair};

    ghost view = { λ e. cons_option (option_map deref_pair e.only) e.rest };
}

impl<'a, K, V> Iterator for Entries<'a, K, V> {
    type Item = (&'a K, &'a V);

    ghost next_gives = { TakesFirst deref_pair };

    ghost remaining = { λ s. at_most (length s) };

    /// The next entry. Takes no memory.
    fn next(&mut self) -> Option<(&'a K, &'a V)> {
        match self.only.take() {
            Some(entry) => Some(entry),
            None => self.rest.next(),
        }
    }
}
