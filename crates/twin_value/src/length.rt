//! How many bytes the texts of twins and relationships have, counted without memory.

ghost use Rattle.std.specs.Prelude.{◌≡◌, ◌+◌, ◌<◌, length, codes, MatchOption};
ghost use Rattle.dt_base.specs.names.Grammar.{dtmi_text};
ghost use Rattle.json_tree.specs.Values.{object, text, no_members, member};
ghost use Rattle.json_tree.specs.Printing.{printed};
ghost use Rattle.json_tree.specs.View.{view, members_view};
ghost use Rattle.json_length.specs.Lengths.{member_length, members_length};
ghost use Rattle.twin_value.specs.Twins.{picked, any_key, with_metadata, twin_json, link_json};

use crate::link::Relationship;
use crate::twin::Twin;
use dt_base::names::Dtmi;
use json_length::{left_after_members, left_after_text};
use json_tree::{Member, members_in};

/// The bytes of `:{"$metadata":{},` before the members of a component, and of the comma behind its brace.
const AROUND_PART: u64 = 18;

/// What is left of so many bytes behind a member with a text, its colon and one comma.
fn left_after_named(left: u64, key: &str, bytes: &str) -> Option<u64>
    ensures { MatchOption result
        (left < member_length (key.now, text bytes.now))
        (λ rest. rest + member_length (key.now, text bytes.now) ≡ left) }
{
    let left = left_after_text(left, key)?;
    let left = left_after_text(left, bytes)?;
    left.checked_sub(2)
}

/// The same behind the `$metadata` of a twin of a model, in which the closing brace stands for the comma.
fn left_after_metadata(left: u64, model: &Dtmi) -> Option<u64>
    ensures { MatchOption result
        (left < member_length (codes "$metadata", object (member (codes "$model") (text (dtmi_text model.now)) no_members)))
        (λ rest. rest + member_length (codes "$metadata", object (member (codes "$model") (text (dtmi_text model.now)) no_members)) ≡ left) }
{
    let left = left_after_text(left, "$metadata")?;
    let left = left.checked_sub(3)?;
    left_after_named(left, "$model", model.as_str())
}

/// The same behind a component, as it is printed.
fn left_after_part(left: u64, part: &Member) -> Option<u64>
    ensures { MatchOption result
        (left < member_length (part.now.key, with_metadata (view part.now.value)))
        (λ rest. rest + member_length (part.now.key, with_metadata (view part.now.value)) ≡ left) }
{
    let left = left_after_text(left, part.key.as_str())?;
    let left = left.checked_sub(AROUND_PART)?;
    left_after_members(left, members_in(&part.value))
}

/// The same behind components.
fn left_after_parts(left: u64, parts: &[Member]) -> Option<u64>
    ensures { MatchOption result
        (left < members_length (picked any_key with_metadata (members_view parts.now)))
        (λ rest. rest + members_length (picked any_key with_metadata (members_view parts.now)) ≡ left) }
{
    let mut rest = left;
    for part in parts {
        rest = left_after_part(rest, part)?;
    }
    Some(rest)
}

/// What is left of so many bytes behind the text of a twin, which has as many in whatever order its members stand; None exactly
/// where it has more. Takes no memory. The call goes down as deep as the values nest.
pub fn left_after_twin(left: u64, t: &Twin) -> Option<u64>
    ensures { MatchOption result
        (left < length (printed (twin_json t.now)))
        (λ rest. rest + length (printed (twin_json t.now)) ≡ left) }
{
    // The last member has the closing brace in place of the comma.
    let left = left_after_named(left.checked_sub(1)?, "$dtId", t.id.as_str())?;
    let left = left_after_metadata(left, &t.model)?;
    let left = left_after_members(left, members_in(&t.values))?;
    left_after_parts(left, members_in(&t.parts))
}

/// The same of a relationship. Takes no memory.
pub fn left_after_link(left: u64, r: &Relationship) -> Option<u64>
    ensures { MatchOption result
        (left < length (printed (link_json r.now)))
        (λ rest. rest + length (printed (link_json r.now)) ≡ left) }
{
    let left = left_after_named(left.checked_sub(1)?, "$relationshipId", r.id.as_str())?;
    let left = left_after_named(left, "$relationshipName", r.name.as_str())?;
    let left = left_after_named(left, "$sourceId", r.source.as_str())?;
    let left = left_after_named(left, "$targetId", r.target.as_str())?;
    left_after_members(left, members_in(&r.payload))
}
