//! The bodies of refusals.

ghost use Rattle.std.specs.Prelude.{◌≡◌, ◌≢◌, ◌++◌, ◌∷◌, [], codes, string_bytes, IfOk, OnOk};
ghost use Rattle.graph_routes.specs.Errors.{code, count, error_text, fault_word, place_member, refusal_body, text_member};
ghost use Rattle.graph_routes.specs.Machinery.Groups.{refusal_group};

use dt_base::{List, OutOfMemory};
use graph_asks::{At, Refusal};
use json_tree::push_quoted;
use std::alloc::{AllocError, Global};

/// Room in bytes for most bodies.
const ROOM: usize = 128;

/// Opens the object of an error.
fn open(alloc: Global) -> Result<String, AllocError>
    ensures { IfOk result (λ text. string_bytes text ≡ codes "{\"error\":{") }
{
    let mut text = String::with_capacity(alloc, ROOM)?;
    text.push_str("{\"error\":{")?;
    Ok(text)
}

/// Closes the object of an error.
fn close(mut text: String) -> Result<List<u8>, OutOfMemory>
    ensures { IfOk result (λ body. body ≡ string_bytes text ++ codes "}}") }
{
    text.push_str("}}")?;
    Ok(List::from_vec(text.into_bytes()))
}

/// Appends a member with a text.
fn push_word(out: &mut String, key: &str, text: &str) -> Result<(), AllocError>
    ensures { OnOk result (string_bytes out.new ≡ string_bytes out.old ++ text_member key.now text.now) }
{
    push_quoted(out, key)?;
    out.push(':')?;
    push_quoted(out, text)
}

/// Appends a member with a number.
fn push_count(out: &mut String, key: &str, number: u64) -> Result<(), AllocError>
    ensures { OnOk result (string_bytes out.new ≡ string_bytes out.old ++ count key.now number) }
{
    push_quoted(out, key)?;
    out.push(':')?;
    out.push_str(itoa::Buffer::new().format(number))
}

/// Appends the member with a place.
fn push_place(out: &mut String, place: &At) -> Result<(), AllocError>
    ensures { OnOk result (string_bytes out.new ≡ string_bytes out.old ++ place_member place.now) }
{
    match place {
        At::Number(byte) => push_count(out, "at", *byte),
        At::Pointer(pointer) => push_word(out, "at", pointer.as_str()),
    }
}

/// The body with a code alone.
fn bare(alloc: Global, name: &str) -> Result<List<u8>, OutOfMemory>
    ensures { IfOk result (λ body. body ≡ error_text (code name.now ∷ [])) }
{
    let mut out = open(alloc)?;
    push_word(&mut out, "code", name)?;
    close(out)
}

/// The body with a code and a text.
fn with_word(alloc: Global, name: &str, key: &str, text: &str) -> Result<List<u8>, OutOfMemory>
    ensures { IfOk result (λ body. body ≡ error_text (code name.now ∷ text_member key.now text.now ∷ [])) }
{
    let mut out = open(alloc)?;
    push_word(&mut out, "code", name)?;
    out.push(',')?;
    push_word(&mut out, key, text)?;
    close(out)
}

/// The body with a code and a number.
fn with_count(alloc: Global, name: &str, key: &str, number: u64) -> Result<List<u8>, OutOfMemory>
    ensures { IfOk result (λ body. body ≡ error_text (code name.now ∷ count key.now number ∷ [])) }
{
    let mut out = open(alloc)?;
    push_word(&mut out, "code", name)?;
    out.push(',')?;
    push_count(&mut out, key, number)?;
    close(out)
}

/// The body with a code and two texts.
fn with_words(
    alloc: Global,
    name: &str,
    first: (&str, &str),
    second: (&str, &str),
) -> Result<List<u8>, OutOfMemory>
    ensures { IfOk result (λ body. body ≡ error_text (code name.now ∷ text_member first.entry.0.now first.entry.1.now ∷ text_member second.entry.0.now second.entry.1.now ∷ [])) }
{
    let mut out = open(alloc)?;
    push_word(&mut out, "code", name)?;
    out.push(',')?;
    push_word(&mut out, first.0, first.1)?;
    out.push(',')?;
    push_word(&mut out, second.0, second.1)?;
    close(out)
}

/// The body with a code and that of a fault.
fn with_fault(alloc: Global, name: &str, fault: &str) -> Result<List<u8>, OutOfMemory>
    ensures { IfOk result (λ body. body ≡ error_text (code name.now ∷ fault_word fault.now ∷ [])) }
{
    with_word(alloc, name, "fault", fault)
}

/// The same with the place of the fault.
fn with_fault_at(
    alloc: Global,
    place: &At,
    name: &str,
    fault: &str,
) -> Result<List<u8>, OutOfMemory>
    ensures { IfOk result (λ body. body ≡ error_text (place_member place.now ∷ code name.now ∷ fault_word fault.now ∷ [])) }
{
    let mut out = open(alloc)?;
    push_place(&mut out, place)?;
    out.push(',')?;
    push_word(&mut out, "code", name)?;
    out.push(',')?;
    push_word(&mut out, "fault", fault)?;
    close(out)
}

/// The body of a fault of a patch.
fn patch_fault(alloc: Global, fault: &str, index: u64) -> Result<List<u8>, OutOfMemory>
    ensures { IfOk result (λ body. body ≡ error_text (code (codes "PatchFault") ∷ fault_word fault.now ∷ count (codes "index") index ∷ [])) }
{
    let mut out = open(alloc)?;
    push_word(&mut out, "code", "PatchFault")?;
    out.push(',')?;
    push_word(&mut out, "fault", fault)?;
    out.push(',')?;
    push_count(&mut out, "index", index)?;
    close(out)
}

/// The body that tells which model names the one that is to go.
fn in_use(alloc: Global, by: &str) -> Result<List<u8>, OutOfMemory>
    ensures { IfOk result (λ body. body ≡ error_text (text_member (codes "by") by.now ∷ code (codes "ModelInUse") ∷ [])) }
{
    let mut out = open(alloc)?;
    push_word(&mut out, "by", by)?;
    out.push(',')?;
    push_word(&mut out, "code", "ModelInUse")?;
    close(out)
}

/// The body of a refusal.
pub fn body_of(alloc: Global, refusal: &Refusal) -> Result<List<u8>, OutOfMemory>
    ensures { IfOk result (λ body. body ≡ refusal_body refusal.now) }
{
    match refusal {
        Refusal::NoRoute => bare(alloc, "NoRoute"),
        Refusal::BadMethod { allow: _ } => bare(alloc, "BadMethod"),
        Refusal::BadHead => bare(alloc, "BadHead"),
        Refusal::CutOff => bare(alloc, "CutOff"),
        Refusal::TransferCoding => bare(alloc, "TransferCoding"),
        Refusal::BadToken => bare(alloc, "BadToken"),
        Refusal::BodyTooLong { limit } => with_count(alloc, "BodyTooLong", "limit", *limit),
        Refusal::BadId { part } => with_count(alloc, "BadId", "part", *part),
        Refusal::TooManyModels { limit } => with_count(alloc, "TooManyModels", "limit", *limit),
        _ => body_of_fault(alloc, refusal),
    }
}

/// The same of a refusal that `body_of` leaves to it.
fn body_of_fault(alloc: Global, refusal: &Refusal) -> Result<List<u8>, OutOfMemory>
    requires { refusal_group refusal.now ≢ 0 }
    ensures { IfOk result (λ body. body ≡ refusal_body refusal.now) }
{
    match refusal {
        Refusal::JsonFault { at, fault } => {
            with_fault_at(alloc, at, "JsonFault", fault.as_str())
        }
        Refusal::ModelFault { at, fault } => {
            with_fault_at(alloc, at, "ModelFault", fault.as_str())
        }
        Refusal::BodyFault { at, fault } => {
            with_fault_at(alloc, at, "BodyFault", fault.as_str())
        }
        Refusal::QueryFault {
            fault,
            at: Some(at),
        } => with_fault_at(alloc, at, "QueryFault", fault.as_str()),
        Refusal::QueryFault { fault, at: None } => {
            with_fault(alloc, "QueryFault", fault.as_str())
        }
        Refusal::PatchFault { fault, index } => patch_fault(alloc, fault.as_str(), *index),
        Refusal::IdDiffers { given, path } => with_words(
            alloc,
            "IdDiffers",
            ("given", given.as_str()),
            ("path", path.as_str()),
        ),
        Refusal::TwinInUse { id, source } => with_words(
            alloc,
            "TwinInUse",
            ("id", id.as_str()),
            ("source", source.as_str()),
        ),
        Refusal::DoesNotFit { id, source } => with_words(
            alloc,
            "DoesNotFit",
            ("id", id.as_str()),
            ("source", source.as_str()),
        ),
        _ => body_of_state(alloc, refusal),
    }
}

/// The same of a refusal that both leave to it.
fn body_of_state(alloc: Global, refusal: &Refusal) -> Result<List<u8>, OutOfMemory>
    requires { refusal_group refusal.now ≡ 2 }
    ensures { IfOk result (λ body. body ≡ refusal_body refusal.now) }
{
    match refusal {
        Refusal::ModelNotFound { id } => with_word(alloc, "ModelNotFound", "id", id.as_str()),
        Refusal::TwinNotFound { id } => with_word(alloc, "TwinNotFound", "id", id.as_str()),
        Refusal::RelationshipNotFound { id } => {
            with_word(alloc, "RelationshipNotFound", "id", id.as_str())
        }
        Refusal::ComponentNotFound { id } => {
            with_word(alloc, "ComponentNotFound", "id", id.as_str())
        }
        Refusal::ModelExists { id } => with_word(alloc, "ModelExists", "id", id.as_str()),
        Refusal::ModelInUse { by } => in_use(alloc, by.as_str()),
        Refusal::TwinDoesNotFit { twin } => {
            with_word(alloc, "TwinDoesNotFit", "twin", twin.as_str())
        }
        Refusal::Frozen { model } => with_word(alloc, "Frozen", "model", model.as_str()),
        Refusal::Decommissioned { model } => {
            with_word(alloc, "Decommissioned", "model", model.as_str())
        }
        Refusal::WrongTarget { model } => with_word(alloc, "WrongTarget", "model", model.as_str()),
        Refusal::Multiplicity { max } => with_count(alloc, "Multiplicity", "max", *max),
        Refusal::Full { limit } => with_word(alloc, "Full", "limit", limit.text()),
        _ => unreachable!(),
    }
}
