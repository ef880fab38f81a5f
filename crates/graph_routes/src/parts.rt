//! The parts of paths, and what they name.

ghost use Rattle.std.specs.Prelude.{◌≡◌, ◌≤◌, ◌↔◌, ◌==◌, ◌+◌, [], ℕ, List, drop, length, get_or, slice_get, IfOk, IsTrue, MatchOption};
ghost use Rattle.std.specs.List.{position_or_len, slice_split};
ghost use Rattle.std.specs.Option.{option_map};
ghost use Rattle.dt_base.specs.names.Grammar.{Identifier, NameText, OwnDtmiText};
ghost use Rattle.graph_routes.specs.Parts.{NamesComponentPart, NamesModel, part_at};
ghost use Rattle.graph_routes.specs.Paths.{Matches};
ghost use Rattle.graph_routes.specs.declared.route.Route.{Route};

use dt_base::names::{Dtmi, NameFault, is_name};
use dt_base::{OutOfMemory, Text};
use percent_encoding::{DecodeError, percent_decode};
use std::alloc::Global;

/// The most bytes of a model's identifier.
const MOST_BYTES: usize = 128;

/// The place of the first slash at or behind a place; the length where none stands there.
fn next_slash(bytes: &[u8], from: usize) -> usize
    requires { from ≤ length bytes.now }
    ensures next { result ≡ from + position_or_len (λ b. b == 47) (drop from bytes.now) }
    ensures within { result ≤ length bytes.now }
{
    let mut at = from;
    'bytes: while at < bytes.len() && bytes[at] != b'/' {
        at += 1;
    }
    at
}

/// What stands in a path behind so many of its slashes, up to the next one.
fn found_piece(path: &str, slashes: usize) -> Option<&str>
    ensures { option_map (λ p. p.now) result ≡ slice_get (slice_split (λ b. b == 47) path.now) slashes }
{
    let bytes = path.as_bytes();
    let mut start = 0;
    'pieces: for _ in 0..slashes {
        let slash = next_slash(bytes, start);
        if slash == bytes.len() {
            return None;
        }
        start = slash + 1;
    }
    let end = next_slash(bytes, start);
    Some(&path[start..end])
}

/// The same, or the empty text.
fn piece(path: &str, slashes: usize) -> &str
    ensures { result.now ≡ get_or (slice_split (λ b. b == 47) path.now) slashes [] }
{
    match found_piece(path, slashes) {
        Some(piece) => piece,
        None => "",
    }
}

/// The first part of a path of the table; the empty text where it has none.
pub fn first_part(path: &str) -> &str
    ensures { (r : Route) (parts : List (List ℕ)) → Matches r parts path.now → part_at 0 parts ≡ result.now }
{
    piece(path, 2)
}

/// The second part of a path of the table; the empty text where it has none.
pub fn second_part(path: &str) -> &str
    ensures { (r : Route) (parts : List (List ℕ)) → Matches r parts path.now → part_at 1 parts ≡ result.now }
{
    piece(path, 4)
}

/// Whether a text was not read for want of memory.
fn is_want_of_memory(fault: &NameFault) -> bool
    ensures { IsTrue result ↔ (fault.now ≡ NameFault.OutOfMemory) }
{
    match fault {
        NameFault::OutOfMemory => true,
        NameFault::Empty
        | NameFault::TooLong
        | NameFault::BadByte { at: _ }
        | NameFault::Ends
        | NameFault::BadVersion
        | NameFault::Reserved => false,
    }
}

/// The identifier of a model that a text is.
pub fn read_model(alloc: Global, text: &str) -> Result<Option<Dtmi>, OutOfMemory>
    ensures { IfOk result (λ found. MatchOption found
        ((id : Identifier) → OwnDtmiText text.now id → length text.now ≤ 128 → ⊥)
        (λ id. OwnDtmiText text.now id × (length text.now ≤ 128))) }
{
    if text.len() > MOST_BYTES {
        return Ok(None);
    }
    match Dtmi::read(alloc, text) {
        Ok(id) => Ok(Some(id)),
        Err(fault) => {
            if is_want_of_memory(&fault) {
                return Err(OutOfMemory);
            }
            Ok(None)
        }
    }
}

/// The model that a part of a path names. Only want of memory makes it fail. Where nothing in the part is escaped the
/// text is read where it stands.
pub fn model_named(alloc: Global, part: &str) -> Result<Option<Dtmi>, OutOfMemory>
    ensures { IfOk result (λ found. MatchOption found ((id : Identifier) → NamesModel part.now id → ⊥) (λ id. NamesModel part.now id)) }
{
    match percent_decode(part.as_bytes()).decode_utf8(alloc) {
        Ok(text) => read_model(alloc, &text),
        Err(DecodeError::Utf8(_)) => Ok(None),
        Err(DecodeError::OutOfMemory) => Err(OutOfMemory),
    }
}

/// The name that a text is.
fn read_name(alloc: Global, text: &str) -> Result<Option<Text>, OutOfMemory>
    ensures { IfOk result (λ found. MatchOption found (NameText text.now → ⊥) (λ name. (name ≡ text.now) × NameText text.now)) }
{
    if !is_name(text) {
        return Ok(None);
    }
    let name = Text::from_str(alloc, text)?;
    Ok(Some(name))
}

/// The component that a part of a path names. Only want of memory makes it fail.
pub fn component_named(alloc: Global, part: &str) -> Result<Option<Text>, OutOfMemory>
    ensures { IfOk result (λ found. MatchOption found ((name : List ℕ) → NamesComponentPart part.now name → ⊥) (λ name. NamesComponentPart part.now name)) }
{
    match percent_decode(part.as_bytes()).decode_utf8(alloc) {
        Ok(text) => read_name(alloc, &text),
        Err(DecodeError::Utf8(_)) => Ok(None),
        Err(DecodeError::OutOfMemory) => Err(OutOfMemory),
    }
}
