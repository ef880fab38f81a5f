//! The rules on the lengths of lists and on enum values that repeat an earlier one.

ghost use Rattle.std.specs.Prelude.{◌≡◌, ◌↔◌, ◌<◌, length, IsTrue};
ghost use Rattle.json_tree.specs.View.{view};
ghost use Rattle.local_rules.specs.Lists.{TooManyContents, TooManyFields, TooManyParents};
ghost use Rattle.json_tree.specs.Members.{entries_in};

use crate::role::Role;
use json_tree::{Tree, entries_in};

/// The most entries of `contents`.
const MOST_CONTENTS: usize = 300;

/// The most entries of `extends`.
const MOST_PARENTS: usize = 2;

/// The most entries of `fields`.
const MOST_FIELDS: usize = 30;

/// The most entries of `enumValues`.
const MOST_ENUM_VALUES: usize = 100;

/// Whether a value is a list with more entries than this.
fn has_more(tree: &Tree, most: usize) -> bool
    ensures { IsTrue result ↔ (most < length (entries_in (view tree.now))) }
{
    entries_in(tree).len() > most
}

/// Whether `contents` has too many entries.
pub fn has_too_many_contents(tree: &Tree) -> bool
    ensures { IsTrue result ↔ TooManyContents Role.Contents (view tree.now) }
{
    has_more(tree, MOST_CONTENTS)
}

/// Whether `extends` has too many entries.
pub fn has_too_many_parents(tree: &Tree) -> bool
    ensures { IsTrue result ↔ TooManyParents Role.Extends (view tree.now) }
{
    has_more(tree, MOST_PARENTS)
}

/// Whether `fields` has too many entries.
pub fn has_too_many_fields(tree: &Tree) -> bool
    ensures { IsTrue result ↔ TooManyFields Role.Fields (view tree.now) }
{
    has_more(tree, MOST_FIELDS)
}

/// Whether `enumValues` has too many entries.
pub fn has_too_many_enum_values(tree: &Tree) -> bool
    ensures { IsTrue result ↔ (100 < length (entries_in (view tree.now))) }
{
    has_more(tree, MOST_ENUM_VALUES)
}
