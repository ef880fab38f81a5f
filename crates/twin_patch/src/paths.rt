//! Paths: JSON Pointers (RFC 6901) as lists of unescaped tokens.

ghost use Rattle.std.specs.Prelude.{◌≡◌, ◌<◌, ◌≤◌, ◌⊎◌, ◌∷◌, [], ℕ, List, length, get_or, MatchOption, IfOk};
ghost use Rattle.std.specs.List.{slice_range, AllByRecursion};
ghost use Rattle.json_tree.specs.Pointers.{token_byte, token_text, pointer_text};
ghost use Rattle.json_tree.specs.Machinery.Tokens.{IsNoSlash};

use dt_base::{OutOfMemory, Text};
use std::alloc::Global;

/// The next byte of this kind, or the end.
fn end_at(bytes: &[u8], at: usize, stop: u8) -> usize
    requires { at ≤ length bytes.now }
    ensures forward { at ≤ result }
    ensures within { result ≤ length bytes.now }
    ensures others { AllByRecursion (λ b. b ≡ stop → ⊥) (slice_range bytes.now at result) }
    ensures next { result < length bytes.now → get_or bytes.now result 0 ≡ stop }
{
    let mut end = at;
    'others: while end < bytes.len() && bytes[end] != stop {
        end += 1;
    }
    end
}

/// What a `~` with this byte behind it stands for.
fn escaped(byte: u8) -> Option<char>
    ensures { MatchOption result ((b : ℕ) → (b ≡ 126) ⊎ (b ≡ 47) → token_byte b ≡ 126 ∷ byte ∷ [] → ⊥)
        (λ b. ((b ≡ 126) ⊎ (b ≡ 47)) × (token_byte b ≡ 126 ∷ byte ∷ [])) }
{
    match byte {
        b'0' => Some('~'),
        b'1' => Some('/'),
        _ => None,
    }
}

/// The key that a token is of (RFC 6901, section 3), where it has no `/` and each `~` is followed by `0` or `1`.
fn key_of(alloc: Global, token: &str) -> Result<Option<Text>, OutOfMemory>
    requires { AllByRecursion IsNoSlash token.now }
    ensures { IfOk result (λ found. MatchOption found ((key : List ℕ) → token.now ≡ token_text key → ⊥) (λ key. token.now ≡ token_text key)) }
{
    let bytes = token.as_bytes();
    let mut key = String::new(alloc);
    let mut at = 0;
    'runs: while at < bytes.len() {
        let end = end_at(bytes, at, b'~');
        key.push_str(&token[at..end])?;
        if end == bytes.len() {
            return Ok(Some(Text::from_string(key)));
        }
        if end + 1 == bytes.len() {
            return Ok(None);
        }
        match escaped(bytes[end + 1]) {
            Some(character) => key.push(character)?,
            None => return Ok(None),
        }
        at = end + 2;
    }
    Ok(Some(Text::from_string(key)))
}

/// The tokens of a pointer, unescaped.
pub fn path_of(alloc: Global, pointer: &str) -> Result<Option<Vec<Text>>, OutOfMemory>
    ensures { IfOk result (λ found. MatchOption found ((path : List (List ℕ)) → pointer.now ≡ pointer_text path → ⊥) (λ path. pointer.now ≡ pointer_text path.items)) }
{
    let bytes = pointer.as_bytes();
    let mut path = Vec::new(alloc);
    let mut at = 0;
    'tokens: while at < bytes.len() {
        if bytes[at] != b'/' {
            return Ok(None);
        }
        let end = end_at(bytes, at + 1, b'/');
        match key_of(alloc, &pointer[at + 1..end])? {
            Some(key) => path.push(key)?,
            None => return Ok(None),
        }
        at = end;
    }
    Ok(Some(path))
}
