//! Texts in several languages.

ghost use Rattle.std.specs.Prelude.{◌≡◌, [], ◌∷◌, Some, IfOk, codes};
ghost use Rattle.std.specs.List.{AllZip};
ghost use Rattle.json_tree.specs.View.{view, member_view, members_view};
ghost use Rattle.json_tree.specs.Members.{pairs_of, value_at};
ghost use Rattle.local_rules.specs.Quantities.{IsStringValue};
ghost use Rattle.local_rules.specs.Declarations.{HasLocalized, IsLocalizedBy, IsTextOfLanguage};
ghost use Rattle.model_read.specs.Machinery.Shapes.{HaveStrings, IsWords, MayHave};

use crate::parts::list_of_one;
use crate::texts::text_of;
use dt_base::{List, OutOfMemory, Text};
use dtdl_terms::{Entry, Localized};
use json_tree::{Member, Tree, value_at};
use std::alloc::Global;

/// The text of one language.
fn entry_of(alloc: Global, member: &Member) -> Result<Entry, OutOfMemory>
    requires { IsStringValue (view member.now.value) }
    ensures { IfOk result (λ e. IsTextOfLanguage (member_view member.now) e) }
{
    let language = member.key.copy(alloc)?;
    let text = text_of(alloc, &member.value)?;
    Ok(Entry { language, text })
}

/// The texts of the languages that the members name.
fn entries_of(alloc: Global, members: &[Member]) -> Result<List<Entry>, OutOfMemory>
    requires { HaveStrings (members_view members.now) }
    ensures { IfOk result (λ es. AllZip IsTextOfLanguage (pairs_of (members_view members.now)) es) }
{
    let mut entries = Vec::with_capacity(alloc, members.len())?;
    for member in members {
        entries.push(entry_of(alloc, member)?)?;
    }
    Ok(List::from_vec(entries))
}

/// The language of a text that stands without one (DTDL v2, "Internationalization").
fn english(alloc: Global, text: &Text) -> Result<List<Entry>, OutOfMemory>
    ensures { IfOk result (λ es. es ≡ record { language = codes "en"; text = text.now } ∷ []) }
{
    let language = Text::from_str(alloc, "en")?;
    let text = text.copy(alloc)?;
    list_of_one(alloc, Entry { language, text })
}

/// The localized text that a value is.
#[tactic(auto, using(json_tree::proofs::Views::views))]
fn localized_of(alloc: Global, tree: &Tree) -> Result<List<Entry>, OutOfMemory>
    requires { IsWords (view tree.now) }
    ensures { IfOk result (λ es. IsLocalizedBy (view tree.now) es) }
{
    match tree {
        Tree::Text(text) => english(alloc, text),
        Tree::Members(members) => entries_of(alloc, members.as_slice()),
        Tree::Null | Tree::Bool(_) | Tree::Number(_) | Tree::List(_) => unreachable!(),
    }
}

/// The localized text under a key; without entries where there is none.
pub fn localized_at(alloc: Global, members: &[Member], key: &str) -> Result<Localized, OutOfMemory>
    requires { MayHave IsWords key.now (members_view members.now) }
    ensures { IfOk result (λ l. HasLocalized key.now (members_view members.now) l.entries) }
{
    match value_at(members, key) {
        Some(value) => Ok(Localized {
            entries: localized_of(alloc, value)?,
        }),
        None => Ok(Localized {
            entries: List::new(alloc),
        }),
    }
}
