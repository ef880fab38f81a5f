//! Where JSON Pointers lead (RFC 6901, section 4).

ghost use Rattle.std.specs.Prelude.{◌≡◌, ◌<◌, ◌≤◌, ◌^◌, ◌↔◌, ◌⊎◌, ◌++◌, ◌∷◌, [], ℕ, List, length, drop, get_or, decimal, Some, IsTrue, MatchOption};
ghost use Rattle.std.specs.List.{slice_range, AllByRecursion};
ghost use Rattle.json_tree.specs.Values.{Json};
ghost use Rattle.json_tree.specs.View.{view, elements_view, members_view};
ghost use Rattle.json_tree.specs.Places.{element_at};
ghost use Rattle.json_tree.specs.Pointers.{token_byte, token_text, IsFirstMember, IsStep, PointsTo};
ghost use Rattle.json_tree.specs.Machinery.Tokens.{IsNoSlash, HasIndexForm};

use crate::pointers::is_bare;
use crate::tree::{Member, Tree};

/// Behind the token that stands here.
fn token_end(bytes: &[u8], at: usize) -> usize
    requires { at ≤ length bytes.now }
    ensures forward { at ≤ result }
    ensures within { result ≤ length bytes.now }
    ensures token { AllByRecursion IsNoSlash (slice_range bytes.now at result) }
    ensures next { result < length bytes.now → get_or bytes.now result 0 ≡ 47 }
{
    let mut end = at;
    'token: while end < bytes.len() && bytes[end] != b'/' {
        end += 1;
    }
    end
}

/// Whether these are no digits with a sign in front or with a leading zero.
fn has_index_form(bytes: &[u8]) -> bool
    ensures { IsTrue result ↔ HasIndexForm bytes.now }
{
    if bytes.is_empty() {
        return false;
    }
    if bytes[0] == b'+' {
        return false;
    }
    bytes[0] != b'0' || bytes.len() == 1
}

/// The index that a token is: digits without leading zeros.
#[tactic(auto, using(crate::proofs::Indices::index_matches, crate::proofs::Indices::no_index))]
fn index_of(token: &str) -> Option<usize>
    ensures { MatchOption result ((i : ℕ) → i < 2 ^ 64 → token.now ≡ decimal i → ⊥) (λ i. (i < 2 ^ 64) × (token.now ≡ decimal i)) }
{
    // `parse` also takes a plus in front, and leading zeros.
    if !has_index_form(token.as_bytes()) {
        return None;
    }
    token.parse::<usize>().ok()
}

/// What stands behind a `~` for `~` and for `/`.
fn mark_of(byte: u8) -> u8
    requires { (byte ≡ 126) ⊎ (byte ≡ 47) }
    ensures { token_byte byte ≡ 126 ∷ result ∷ [] }
{
    if byte == b'~' { b'0' } else { b'1' }
}

/// Behind `~` and a mark, if they stand here.
#[tactic(auto, using(crate::proofs::Indices::two_short, crate::proofs::Indices::two_first, crate::proofs::Indices::two_second))]
fn escape_end(token: &[u8], at: usize, mark: u8) -> Option<usize>
    requires { at ≤ length token.now }
    ensures { MatchOption result ((rest : List ℕ) → drop at token.now ≡ 126 ∷ mark ∷ rest → ⊥)
        (λ end. (end ≤ length token.now) × (drop at token.now ≡ 126 ∷ mark ∷ drop end token.now)) }
{
    if token.len() - at < 2 {
        return None;
    }
    if token[at] != b'~' {
        return None;
    }
    if token[at + 1] != mark {
        return None;
    }
    Some(at + 2)
}

/// Behind a byte that stands for itself, if it stands here.
#[tactic(auto, using(crate::proofs::Indices::one_short, crate::proofs::Indices::one_other, crate::proofs::Indices::one_there))]
fn bare_byte_end(token: &[u8], at: usize, byte: u8) -> Option<usize>
    requires { at ≤ length token.now }
    ensures { MatchOption result ((rest : List ℕ) → drop at token.now ≡ byte ∷ rest → ⊥)
        (λ end. (end ≤ length token.now) × (drop at token.now ≡ byte ∷ drop end token.now)) }
{
    if at == token.len() {
        return None;
    }
    if token[at] != byte {
        return None;
    }
    Some(at + 1)
}

/// Behind a byte of a key, if it stands here in a token.
fn byte_end(token: &[u8], at: usize, byte: u8) -> Option<usize>
    requires { at ≤ length token.now }
    ensures { MatchOption result ((rest : List ℕ) → drop at token.now ≡ token_byte byte ++ rest → ⊥)
        (λ end. (end ≤ length token.now) × (drop at token.now ≡ token_byte byte ++ drop end token.now)) }
{
    if is_bare(byte) {
        bare_byte_end(token, at, byte)
    } else {
        escape_end(token, at, mark_of(byte))
    }
}

/// Whether a token is that of a key.
fn is_token_of(token: &[u8], key: &[u8]) -> bool
    ensures { IsTrue result ↔ (token.now ≡ token_text key.now) }
{
    let mut at = 0;
    'key: for byte in key {
        match byte_end(token, at, *byte) {
            Some(end) => at = end,
            None => return false,
        }
    }
    at == token.len()
}

/// The value of the first member with the key that a token is of.
fn member_of<'a>(members: &'a [Member], token: &str) -> Option<&'a Tree>
    ensures { MatchOption result
        ((key : List ℕ) (part : Json) → token.now ≡ token_text key → IsFirstMember key (members_view members.now) part → ⊥)
        (λ part. (key : List ℕ) × (token.now ≡ token_text key) × IsFirstMember key (members_view members.now) (view part.now)) }
{
    for member in members {
        if is_token_of(token.as_bytes(), member.key.as_bytes()) {
            return Some(&member.value);
        }
    }
    None
}

/// The element at the index that a token is.
fn element_of<'a>(items: &'a [Tree], token: &str) -> Option<&'a Tree>
    ensures few { length items.now < 2 ^ 64 }
    ensures found { MatchOption result
        ((i : ℕ) (part : Json) → token.now ≡ decimal i → element_at (elements_view items.now) i ≡ Some part → ⊥)
        (λ part. (i : ℕ) × (token.now ≡ decimal i) × (element_at (elements_view items.now) i ≡ Some (view part.now))) }
{
    let i = index_of(token)?;
    if i < items.len() {
        Some(&items[i])
    } else {
        None
    }
}

/// The part to which a token leads.
fn part_of<'a>(tree: &'a Tree, token: &str) -> Option<&'a Tree>
    ensures only { (key : List ℕ) (one other : Json) → IsStep (view tree.now) key one → IsStep (view tree.now) key other → one ≡ other }
    ensures found { MatchOption result
        ((key : List ℕ) (part : Json) → token.now ≡ token_text key → IsStep (view tree.now) key part → ⊥)
        (λ part. (key : List ℕ) × (token.now ≡ token_text key) × IsStep (view tree.now) key (view part.now)) }
{
    match tree {
        Tree::List(items) => element_of(items.as_slice(), token),
        Tree::Members(members) => member_of(members.as_slice(), token),
        _ => None,
    }
}

/// The value to which a JSON Pointer leads (RFC 6901, section 4), and none where it is malformed or leads to nothing.
/// Of equal keys it takes the first, and `-` leads to nothing. Takes no memory but the stack's: the call goes down as deep
/// as the pointer leads.
#[cycle(at)]
pub fn at<'a>(tree: &'a Tree, pointer: &str) -> Option<&'a Tree>
    ensures { MatchOption result ((part : Json) → PointsTo (view tree.now) pointer.now part → ⊥)
        (λ part. PointsTo (view tree.now) pointer.now (view part.now)) }
{
    let bytes = pointer.as_bytes();
    if bytes.is_empty() {
        return Some(tree);
    }
    if bytes[0] != b'/' {
        return None;
    }
    let end = token_end(bytes, 1);
    let part = part_of(tree, &pointer[1..end])?;
    at(part, &pointer[end..])
}
