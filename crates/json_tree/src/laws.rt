//! What the definitions say of values and their places, and of the texts of trees.

ghost use Rattle.std.specs.Prelude.{◌≡◌, ◌++◌, [], ℕ, List};
ghost use Rattle.json_tree.specs.Grammar.{IsSpaces, Spells};
ghost use Rattle.json_tree.specs.Pointers.{IsPointerOf};
ghost use Rattle.json_tree.specs.Printing.{NestsWithin, printed};
ghost use Rattle.json_tree.specs.Values.{Raw, Json, HasDistinctKeys, number};
ghost use Rattle.json_tree.specs.View.{view, elements_view, members_view};
ghost use Rattle.json_tree.specs.Machinery.Pieces.{IsOfTree, AreOfTrees, MembersAreOfTrees};
ghost use Rattle.json_decimal.specs.Decimals.{number_of};
ghost use Rattle.std.specs.Str.{IsUtf8};

use crate::tree::{Member, Tree};
use json_decimal::Decimal;

/// A place has one pointer, in a value and in one as a text spells it.
pub fn one_pointer()
    ensures value { (v : Json) (place one other : List ℕ) → IsPointerOf v place one → IsPointerOf v place other → one ≡ other }
    ensures spelled { (raw : Raw) (place one other : List ℕ) → IsPointerOf raw place one → IsPointerOf raw place other → one ≡ other }
{}

/// The text that a tree prints as spells its value, where that nests at most 64 deep and no object in it has two members
/// of one key. The call walks over the tree, whose types keep what this rests on, as deep as it nests, and takes no memory
/// but the stack's; where the text is printed anyway, `print` says the same.
#[tactic(auto, using(crate::proofs::Printable::print_spells))]
pub fn reads_back(tree: &Tree)
    ensures { NestsWithin 64 (view tree.now) → HasDistinctKeys (view tree.now) → Spells (printed (view tree.now)) (view tree.now) }
{
    of_tree(tree);
}

/// The same of that text with white space behind it.
pub fn reads_back_before_spaces(tree: &Tree)
    ensures { (spaces : List ℕ) → IsSpaces spaces [] → NestsWithin 64 (view tree.now) → HasDistinctKeys (view tree.now)
        → Spells (printed (view tree.now) ++ spaces) (view tree.now) }
{
    of_tree(tree);
}

/// A number of a tree is in range and reads back.
pub fn of_number(decimal: &Decimal)
    ensures { IsOfTree (number (number_of decimal.now)) }
{
    json_decimal::reads_back();
    let _decimal = *decimal;
}

/// A text or key of a tree is UTF-8.
fn of_text(text: &str)
    ensures { IsUtf8 text.now }
{}

/// What a tree holds is that of a tree.
#[cycle(of_tree)]
fn of_tree(tree: &Tree)
    ensures { IsOfTree (view tree.now) }
{
    match tree {
        Tree::Null | Tree::Bool(_) => {}
        Tree::Number(decimal) => of_number(decimal),
        Tree::Text(text) => of_text(text.as_str()),
        Tree::List(items) => of_items(items.as_slice()),
        Tree::Members(members) => of_members(members.as_slice()),
    }
}

#[cycle(of_tree)]
fn of_items(items: &[Tree])
    ensures { AreOfTrees (elements_view items.now) }
{
    for item in items {
        of_tree(item);
    }
}

#[cycle(of_tree)]
fn of_members(members: &[Member])
    ensures { MembersAreOfTrees (members_view members.now) }
{
    for member in members {
        of_text(member.key.as_str());
        of_tree(&member.value);
    }
}
