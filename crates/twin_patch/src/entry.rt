//! Reading one operation of a patch.

ghost use Rattle.std.specs.Prelude.{◌≡◌, ◌↔◌, ◌∷◌, [], ℕ, List, codes, IsTrue, IfOk, MatchOption, Some};
ghost use Rattle.std.specs.Option.{option_map};
ghost use Rattle.json_tree.specs.Values.{text, object};
ghost use Rattle.json_tree.specs.View.{view, members_view};
ghost use Rattle.twin_patch.specs.Objects.{value_under};
ghost use Rattle.twin_patch.specs.Operations.{Change, change_of};
ghost use Rattle.twin_patch.specs.Reading.{HasWord, HasPath, HasValue, IsProtected, BeginsWithDollar, IsModelMove, AnswersEntry, change_word};
ghost use Rattle.twin_patch.specs.declared.word.Word.{Word};
ghost use Rattle.twin_patch.specs.declared.entry.OpEnd.TheVariants as ends;

use crate::code::PatchCode;
use crate::patch::{Op, OpKind};
use crate::paths::path_of;
use crate::word::{Word, word_of};
use dt_base::{List, OutOfMemory, Text};
use json_tree::{Member, Tree};
use std::alloc::Global;

/// The most parts of a path.
const MOST_PARTS: usize = 64;

/// What a patch is for.
#[derive(Clone, Copy, Debug, PartialEq, Eq, Hash)]
pub enum PatchOf {
    /// A model, of which a patch sets the mark `decommissioned`.
    Model,
    /// A twin, of which a patch may replace the model.
    Twin,
    /// A component of a twin.
    Part,
    /// A relationship.
    Rel,
}

/// Why an operation was not read.
#[derive(Clone, Copy, Debug, PartialEq, Eq)]
pub enum OpEnd {
    Code(PatchCode),
    OutOfMemory,
}

impl From<OutOfMemory> for OpEnd {
    ghost from_gives = { λ _ end. end ≡ ends.OutOfMemory };

    fn from(_error: OutOfMemory) -> OpEnd {
        OpEnd::OutOfMemory
    }
}

/// The value of the first member with this key.
fn value_under<'a>(members: &'a [Member], key: &str) -> Option<&'a Tree>
    ensures { option_map (λ t. view t.now) result ≡ value_under key.now (members_view members.now) }
{
    for member in members {
        if member.key.as_str() == key {
            return Some(&member.value);
        }
    }
    None
}

/// The text of the first member with this key.
fn text_under<'a>(members: &'a [Member], key: &str) -> Option<&'a str>
    ensures { MatchOption result ((t : List ℕ) → value_under key.now (members_view members.now) ≡ Some (text t) → ⊥)
        (λ t. value_under key.now (members_view members.now) ≡ Some (text t.now)) }
{
    match value_under(members, key) {
        Some(Tree::Text(text)) => Some(text.as_str()),
        _ => None,
    }
}

/// The word of an operation.
fn word_in(members: &[Member]) -> Option<Word>
    ensures { MatchOption result ((w : Word) → HasWord (object (members_view members.now)) w → ⊥) (λ w. HasWord (object (members_view members.now)) w) }
{
    word_of(text_under(members, "op")?)
}

/// The path of an operation.
fn path_in(alloc: Global, members: &[Member]) -> Result<Option<Vec<Text>>, OutOfMemory>
    ensures { IfOk result (λ found. MatchOption found ((path : List (List ℕ)) → HasPath (object (members_view members.now)) path → ⊥)
        (λ path. HasPath (object (members_view members.now)) path.items)) }
{
    let Some(pointer) = text_under(members, "path") else {
        return Ok(None);
    };
    match path_of(alloc, pointer)? {
        Some(path) => {
            let parts = path.as_slice().len();
            if parts < 1 {
                return Ok(None);
            }
            if parts > MOST_PARTS {
                return Ok(None);
            }
            Ok(Some(path))
        }
        None => Ok(None),
    }
}

/// What an operation with this word does, with a copy of its value.
fn kind_in(alloc: Global, members: &[Member], word: Word) -> Result<Option<OpKind>, OutOfMemory>
    ensures { IfOk result (λ found. MatchOption found
        ((change : Change) → word ≡ change_word change → HasValue (object (members_view members.now)) change → ⊥)
        (λ kind. (word ≡ change_word (change_of kind)) × HasValue (object (members_view members.now)) (change_of kind))) }
{
    if word == Word::Remove {
        return Ok(Some(OpKind::Remove));
    }
    let Some(value) = value_under(members, "value") else {
        return Ok(None);
    };
    let value = value.copy(alloc)?;
    if word == Word::Add {
        Ok(Some(OpKind::Add(value)))
    } else {
        Ok(Some(OpKind::Replace(value)))
    }
}

/// Whether the first part of a path begins with `$`.
fn begins_with_dollar(path: &[Text]) -> bool
    ensures { IsTrue result ↔ BeginsWithDollar path.now }
{
    match path.first() {
        Some(part) => {
            let bytes = part.as_bytes();
            !bytes.is_empty() && bytes[0] == b'$'
        }
        None => false,
    }
}

/// Whether this moves a twin to another model.
fn is_model_move(of: PatchOf, word: Word, path: &[Text]) -> bool
    ensures { IsTrue result ↔ IsModelMove of word path.now }
{
    of == PatchOf::Twin && word == Word::Replace && is_model_path(path)
}

/// Whether a path is `/$metadata/$model`.
fn is_model_path(path: &[Text]) -> bool
    ensures { IsTrue result ↔ (path.now ≡ codes "$metadata" ∷ codes "$model" ∷ []) }
{
    is_pair(path, "$metadata", "$model")
}

/// Whether a path has these two parts.
fn is_pair(path: &[Text], first: &str, second: &str) -> bool
    ensures { IsTrue result ↔ (path.now ≡ first.now ∷ second.now ∷ []) }
{
    match path.split_first() {
        Some((part, rest)) => part.as_str() == first && is_only(rest, second),
        None => false,
    }
}

/// Whether a path has this one part.
pub fn is_only(path: &[Text], name: &str) -> bool
    ensures { IsTrue result ↔ (path.now ≡ name.now ∷ []) }
{
    match path.split_first() {
        Some((part, rest)) => part.as_str() == name && rest.is_empty(),
        None => false,
    }
}

/// Whether a path is protected from an operation.
fn is_protected(of: PatchOf, word: Word, path: &[Text]) -> bool
    ensures { IsTrue result ↔ IsProtected of word path.now }
{
    if !begins_with_dollar(path) {
        return false;
    }
    !is_model_move(of, word, path)
}

/// The operation that an object is.
fn object_op(alloc: Global, members: &[Member], of: PatchOf) -> Result<Op, OpEnd>
    ensures { AnswersEntry of (object (members_view members.now)) result }
{
    let Some(word) = word_in(members) else {
        return Err(OpEnd::Code(PatchCode::BadOp));
    };
    let Some(path) = path_in(alloc, members)? else {
        return Err(OpEnd::Code(PatchCode::BadPath));
    };
    let Some(kind) = kind_in(alloc, members, word)? else {
        return Err(OpEnd::Code(PatchCode::MissingValue));
    };
    if is_protected(of, word, path.as_slice()) {
        return Err(OpEnd::Code(PatchCode::Protected));
    }
    Ok(Op {
        kind,
        path: List::from_vec(path),
    })
}

/// The operation that an entry of a patch is.
pub fn read_op(alloc: Global, entry: &Tree, of: PatchOf) -> Result<Op, OpEnd>
    ensures { AnswersEntry of (view entry.now) result }
{
    match entry {
        Tree::Members(members) => object_op(alloc, members.as_slice(), of),
        Tree::Null | Tree::Bool(_) | Tree::Number(_) | Tree::Text(_) | Tree::List(_) => Err(
            OpEnd::Code(PatchCode::NotAnObject),
        ),
    }
}
