//! The rules on names, comments, localized texts, units and command types.

ghost use Rattle.std.specs.Prelude.{◌≡◌, ◌↔◌, ◌<◌, IsTrue, codes};
ghost use Rattle.dt_base.specs.names.Grammar.{NameText};
ghost use Rattle.json_tree.specs.Values.{text};
ghost use Rattle.json_tree.specs.View.{view};
ghost use Rattle.local_rules.specs.Identifiers.{OfText};
ghost use Rattle.local_rules.specs.Breaches.{BreaksAlone};
ghost use Rattle.local_rules.specs.Machinery.Firsts.{IsFirstAmong, further_rules};
ghost use Rattle.local_rules.specs.Texts.{BadCommandType, BadUnit, LongComment, scalar_values};
ghost use Rattle.local_rules.specs.Types.{IsNameValue};

use crate::role::{Localized, Role};
use crate::rule::LocalRule;
use dt_base::names::is_name as is_name_text;
use json_tree::Tree;

/// The most scalar values of a text of `displayName`.
const MOST_OF_DISPLAY_NAME: usize = 64;

/// The most scalar values of a text of `description` or of a comment.
const MOST_OF_DESCRIPTION: usize = 512;

/// Whether a value is this text.
#[tactic(auto, using(json_tree::proofs::Views::views))]
pub fn is_text(tree: &Tree, wanted: &str) -> bool
    ensures { IsTrue result ↔ (view tree.now ≡ text wanted.now) }
{
    match tree {
        Tree::Text(text) => text.as_str() == wanted,
        Tree::Null | Tree::Bool(_) | Tree::Number(_) | Tree::List(_) | Tree::Members(_) => false,
    }
}

/// Whether a value is a text of the name grammar.
#[tactic(auto, using(json_tree::proofs::Views::views))]
pub fn is_name(tree: &Tree) -> bool
    ensures { IsTrue result ↔ IsNameValue (view tree.now) }
{
    match tree {
        Tree::Text(text) => is_name_text(text.as_str()),
        Tree::Null | Tree::Bool(_) | Tree::Number(_) | Tree::List(_) | Tree::Members(_) => false,
    }
}

/// Whether a name is a text that is none of the name grammar.
#[tactic(auto, using(json_tree::proofs::Views::views))]
pub fn is_bad_name(tree: &Tree) -> bool
    ensures { IsTrue result ↔ OfText (λ bytes. NameText bytes → ⊥) (view tree.now) }
{
    match tree {
        Tree::Text(text) => !is_name_text(text.as_str()),
        Tree::Null | Tree::Bool(_) | Tree::Number(_) | Tree::List(_) | Tree::Members(_) => false,
    }
}

/// How many scalar values a text in UTF-8 has.
fn scalar_values(bytes: &[u8]) -> usize
    ensures { result ≡ scalar_values bytes.now }
{
    bytes
        .iter()
        .filter(|byte| !(128 <= **byte && **byte < 192))
        .count()
}

/// Whether a text has more scalar values than this. They are counted only where its bytes are more.
fn is_longer(text: &str, most: usize) -> bool
    ensures { IsTrue result ↔ (most < scalar_values text.now) }
{
    let bytes = text.as_bytes();
    bytes.len() > most && scalar_values(bytes) > most
}

/// Whether a value is a text of more scalar values than this.
#[tactic(auto, using(json_tree::proofs::Views::views))]
fn is_long_text(tree: &Tree, most: usize) -> bool
    ensures { IsTrue result ↔ OfText (λ bytes. most < scalar_values bytes) (view tree.now) }
{
    match tree {
        Tree::Text(text) => is_longer(text.as_str(), most),
        Tree::Null | Tree::Bool(_) | Tree::Number(_) | Tree::List(_) | Tree::Members(_) => false,
    }
}

/// Whether a comment is too long.
pub fn is_long_comment(tree: &Tree) -> bool
    ensures { IsTrue result ↔ LongComment Role.Comment (view tree.now) }
{
    is_long_text(tree, MOST_OF_DESCRIPTION)
}

/// The first rule that a localized text breaks.
pub fn localized_rule(which: Localized, tree: &Tree) -> Option<LocalRule>
    ensures { IsFirstAmong (λ broken. BreaksAlone broken (Role.Localized which) (view tree.now)) (further_rules (Role.Localized which)) result }
{
    match which {
        Localized::DisplayName => {
            is_long_text(tree, MOST_OF_DISPLAY_NAME).then_some(LocalRule::LongDisplayName)
        }
        Localized::Description => {
            is_long_text(tree, MOST_OF_DESCRIPTION).then_some(LocalRule::LongDescription)
        }
    }
}

/// The first rule that a member of a localized text breaks.
pub fn localized_text_rule(which: Localized, tree: &Tree) -> Option<LocalRule>
    ensures { IsFirstAmong (λ broken. BreaksAlone broken (Role.LocalizedText which) (view tree.now)) (further_rules (Role.LocalizedText which)) result }
{
    match which {
        Localized::DisplayName => {
            is_long_text(tree, MOST_OF_DISPLAY_NAME).then_some(LocalRule::LongDisplayName)
        }
        Localized::Description => {
            is_long_text(tree, MOST_OF_DESCRIPTION).then_some(LocalRule::LongDescription)
        }
    }
}

/// Whether the type of a command is none.
pub fn is_bad_command_type(tree: &Tree) -> bool
    ensures { IsTrue result ↔ BadCommandType Role.CommandType (view tree.now) }
{
    !is_text(tree, "synchronous") && !is_text(tree, "asynchronous")
}

/// Whether a unit is not of the name grammar.
pub fn is_bad_unit(tree: &Tree) -> bool
    ensures { IsTrue result ↔ BadUnit Role.Unit (view tree.now) }
{
    !is_name(tree)
}
