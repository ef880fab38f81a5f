//! Localized texts.

ghost use Rattle.std.specs.Prelude.{◌≡◌, ◌≢◌, ◌++◌, [], ◌∷◌, ℕ, List, length, map, string_bytes, IfOk, MatchOption, OnOk};
ghost use Rattle.json_tree.specs.Values.{members_of};
ghost use Rattle.json_tree.specs.Printing.{printed, printed_members, quoted};
ghost use Rattle.canon_text.specs.Canonical.{entry_pair, localized_value};
ghost use Rattle.canon_text.specs.Objects.{members_in_order};
ghost use Rattle.canon_print.specs.Machinery.Bodies.{head_text, IsPrinted};

use crate::heads::{push_head, push_separator};
use crate::sorting::in_order;
use dt_base::OutOfMemory;
use dtdl_terms::{Entry, Localized};
use json_tree::push_quoted;
use std::alloc::Global;

/// Appends a text behind its language.
fn push_entry(out: &mut String, entry: &Entry) -> Result<(), OutOfMemory>
    ensures { OnOk result (string_bytes out.new ≡ string_bytes out.old ++ (head_text entry.now.language ++ quoted entry.now.text)) }
{
    push_quoted(out, entry.language.as_str())?;
    out.push_str(":")?;
    push_quoted(out, entry.text.as_str())?;
    Ok(())
}

/// Appends texts by their languages, with commas between them, and the closing brace.
fn push_lent_entries(out: &mut String, entries: &[&Entry]) -> Result<(), OutOfMemory>
    ensures { OnOk result (string_bytes out.new ≡ string_bytes out.old ++ printed_members (members_of (map (λ e. entry_pair e.now) entries.now))) }
{
    for (position, entry) in entries.iter().enumerate() {
        push_separator(out, position)?;
        push_entry(out, entry)?;
    }
    out.push_str("}")?;
    Ok(())
}

/// Appends the only text of a member, behind its language.
fn push_only_entry(out: &mut String, entry: &Entry) -> Result<(), OutOfMemory>
    ensures { OnOk result (string_bytes out.new ≡ string_bytes out.old ++ printed (members_in_order (entry_pair entry.now ∷ []))) }
{
    out.push_str("{")?;
    push_entry(out, entry)?;
    out.push_str("}")?;
    Ok(())
}

/// Appends texts by their languages, in the order of these.
fn push_many_entries(alloc: Global, out: &mut String, entries: &[Entry]) -> Result<(), OutOfMemory>
    ensures { OnOk result (string_bytes out.new ≡ string_bytes out.old ++ printed (members_in_order (map entry_pair entries.now))) }
{
    let list = in_order(alloc, entries)?;
    out.push_str("{")?;
    push_lent_entries(out, list.as_slice())?;
    Ok(())
}

/// The text that has no other beside it.
fn only_entry(entries: &[Entry]) -> Option<&Entry>
    ensures { MatchOption result (length entries.now ≢ 1) (λ entry. entries.now ≡ entry.now ∷ []) }
{
    match entries {
        [entry] => Some(entry),
        _ => None,
    }
}

/// Appends texts by their languages, in the order of these. Most have one, which needs no sorting.
fn push_entries(alloc: Global, out: &mut String, entries: &[Entry]) -> Result<(), OutOfMemory>
    ensures { OnOk result (string_bytes out.new ≡ string_bytes out.old ++ printed (members_in_order (map entry_pair entries.now))) }
{
    match only_entry(entries) {
        Some(entry) => push_only_entry(out, entry),
        None => push_many_entries(alloc, out, entries),
    }
}

/// Appends a member with a localized text, where it has a text in some language, and answers whether still none was
/// printed.
pub(crate) fn push_localized(
    alloc: Global,
    out: &mut String,
    first: bool,
    head: &str,
    value: &Localized,
) -> Result<bool, OutOfMemory>
    ensures { IfOk result (λ after. (key : List ℕ) → head.now ≡ head_text key
        → IsPrinted (string_bytes out.old) (string_bytes out.new) first after key (localized_value value.now)) }
{
    let entries = value.entries.as_slice();
    if entries.is_empty() {
        return Ok(first);
    }
    push_head(out, first, head)?;
    push_entries(alloc, out, entries)?;
    Ok(false)
}
