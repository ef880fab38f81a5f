//! The names of what twins have.

ghost use Rattle.std.specs.Prelude.{◌≡◌, ◌↔◌, IsTrue};
ghost use Rattle.json_tree.specs.View.{members_view, view};
ghost use Rattle.json_tree.specs.Members.{members_in};
ghost use Rattle.graph_judges.specs.fits.Machinery.Keys.{keys_in, HaveSameNames};

use json_tree::{Member, Tree, members_in};
use twin_value::Twin;

/// Whether two objects have the same keys, in the same order.
fn have_same_keys(a: &[Member], b: &[Member]) -> bool
    ensures { IsTrue result ↔ (keys_in (members_view a.now) ≡ keys_in (members_view b.now)) }
{
    if a.len() != b.len() {
        return false;
    }
    let mut at = 0;
    'members: while at < a.len() {
        if a[at].key != b[at].key {
            return false;
        }
        at += 1;
    }
    true
}

/// The same of trees.
fn are_keyed_alike(a: &Tree, b: &Tree) -> bool
    ensures { IsTrue result ↔ (keys_in (members_in (view a.now)) ≡ keys_in (members_in (view b.now))) }
{
    have_same_keys(members_in(a), members_in(b))
}

/// Whether two twins have values of the same names, and components of the same names. Takes no memory.
pub(crate) fn have_same_names(a: &Twin, b: &Twin) -> bool
    ensures { IsTrue result ↔ HaveSameNames a.now b.now }
{
    if are_keyed_alike(&a.values, &b.values) {
        return are_keyed_alike(&a.parts, &b.parts);
    }
    false
}
