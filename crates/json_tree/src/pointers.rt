//! JSON Pointers (RFC 6901).

ghost use Rattle.std.specs.Prelude.{◌≡◌, ◌<◌, ◌≤◌, ◌⊎◌, ◌++◌, ◌∷◌, ℕ, List, string_bytes, length, get_or, decimal, IsTrue, IsFalse, IfOk, OnOk};
ghost use Rattle.std.specs.List.{slice_range, AllByRecursion};
ghost use Rattle.json_tree.specs.Values.{Json, HasDistinctKeys};
ghost use Rattle.json_tree.specs.View.{view};
ghost use Rattle.json_tree.specs.Places.{IsPart, StandsAt};
ghost use Rattle.json_tree.specs.Pointers.{token_byte, token_text, pointer_text, PointsTo, HasToken, AreReferenceTokens, IsPointerOf};
ghost use Rattle.json_tree.specs.Machinery.Tokens.{IsBare};

use crate::places::Place;
use crate::tree::Tree;
use dt_base::{OutOfMemory, Text};
use std::alloc::{AllocError, Global};

/// The text of a JSON Pointer.
#[derive(Debug, Drop)]
pub struct Pointer {
    pub text: Text,
}

impl Pointer {
    /// An equal pointer in memory of its own. Fails only for want of memory.
    pub fn copy(&self, alloc: Global) -> Result<Pointer, OutOfMemory>
        ensures { IfOk result (λ pointer. pointer ≡ self.now) }
    {
        let text = self.text.copy(alloc)?;
        Ok(Pointer { text })
    }
}

/// A byte of a key that stands for itself in a token.
pub fn is_bare(byte: u8) -> bool
    ensures bare { IsTrue result → IsBare byte }
    ensures other { IsFalse result → (byte ≡ 126) ⊎ (byte ≡ 47) }
{
    byte != b'~' && byte != b'/'
}

/// Behind the bytes of a key that stand for themselves.
fn bare_end(bytes: &[u8], at: usize) -> usize
    requires { at ≤ length bytes.now }
    ensures forward { at ≤ result }
    ensures within { result ≤ length bytes.now }
    ensures bare { AllByRecursion IsBare (slice_range bytes.now at result) }
    ensures next { result < length bytes.now → (get_or bytes.now result 0 ≡ 126) ⊎ (get_or bytes.now result 0 ≡ 47) }
{
    let mut end = at;
    'bare: while end < bytes.len() && is_bare(bytes[end]) {
        end += 1;
    }
    end
}

/// What stands for `~` and for `/`.
fn escape_of(byte: u8) -> &'static str
    requires { (byte ≡ 126) ⊎ (byte ≡ 47) }
    ensures { result.now ≡ token_byte byte }
{
    if byte == b'~' { "~0" } else { "~1" }
}

/// Appends a key as a token.
fn push_key(out: &mut String, key: &str) -> Result<(), AllocError>
    ensures { OnOk result (string_bytes out.new ≡ string_bytes out.old ++ token_text key.now) }
{
    let bytes = key.as_bytes();
    let mut at = 0;
    'runs: while at < bytes.len() {
        let end = bare_end(bytes, at);
        out.push_str(&key[at..end])?;
        if end == bytes.len() {
            return Ok(());
        }
        out.push_str(escape_of(bytes[end]))?;
        at = end + 1;
    }
    Ok(())
}

/// Appends a position as a token.
fn push_position(out: &mut String, position: u64) -> Result<(), AllocError>
    ensures { OnOk result (string_bytes out.new ≡ string_bytes out.old ++ decimal position) }
{
    write!(out, "{position}")
}

/// Appends the token of a part, and gives the part.
fn push_step<'a>(out: &mut String, tree: &'a Tree, step: u64) -> Result<&'a Tree, AllocError>
    requires { (part : Json) × IsPart (view tree.now) step part }
    ensures { IfOk result (λ part. (token : List ℕ) × HasToken (view tree.now) step token (view part.now)
        × (string_bytes out.new ≡ string_bytes out.old ++ 47 ∷ token_text token)) }
{
    out.push('/')?;
    match tree {
        Tree::List(items) => {
            push_position(out, step)?;
            Ok(&items.as_slice()[step as usize])
        }
        Tree::Members(members) => {
            let member = &members.as_slice()[step as usize];
            push_key(out, member.key.as_str())?;
            Ok(&member.value)
        }
        _ => Ok(tree),
    }
}

/// Appends the tokens on the way to a place.
#[cycle(points)]
fn push_steps(out: &mut String, tree: &Tree, steps: &[u64]) -> Result<(), AllocError>
    requires { (part : Json) × StandsAt (view tree.now) steps.now part }
    ensures { OnOk result ((tokens : List (List ℕ)) × AreReferenceTokens (view tree.now) steps.now tokens
        × (string_bytes out.new ≡ string_bytes out.old ++ pointer_text tokens)) }
{
    match steps.split_first() {
        None => Ok(()),
        Some((step, rest)) => {
            let part = push_step(out, tree, *step)?;
            push_steps(out, part, rest)
        }
    }
}

/// The text of the pointer to a place.
fn text_of(alloc: Global, tree: &Tree, steps: &[u64]) -> Result<Text, OutOfMemory>
    requires { (part : Json) × StandsAt (view tree.now) steps.now part }
    ensures { IfOk result (λ text. IsPointerOf (view tree.now) steps.now text) }
{
    let mut out = String::new(alloc);
    push_steps(&mut out, tree, steps)?;
    Ok(Text::from_string(out))
}

/// The pointer (RFC 6901) to a place in a tree: the keys and positions on the way to it. Fails only for want of memory.
/// The call goes down as deep as the place lies.
pub fn pointer_of(alloc: Global, tree: &Tree, place: &Place) -> Result<Pointer, OutOfMemory>
    requires { (part : Json) × StandsAt (view tree.now) place.now.steps part }
    ensures text { IfOk result (λ pointer. IsPointerOf (view tree.now) place.now.steps pointer.text) }
    // It leads to what stands at the place, unless a key stands twice in an object.
    ensures leads { HasDistinctKeys (view tree.now) → (part : Json) → StandsAt (view tree.now) place.now.steps part
        → IfOk result (λ pointer. PointsTo (view tree.now) pointer.text part) }
{
    let text = text_of(alloc, tree, place.steps.as_slice())?;
    Ok(Pointer { text })
}
