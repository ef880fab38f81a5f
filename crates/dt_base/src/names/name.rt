//! Names, as contents, fields and enumeration entries have them.

ghost use Rattle.std.specs.Prelude.{◌≡◌, ◌↔◌, ◌<◌, length, IfOk, IsTrue, MatchResult};
ghost use Rattle.std.specs.List.{AllPass};
ghost use Rattle.dt_base.specs.names.Grammar.{IsSegment, NameText, is_name_byte};
ghost use Rattle.dt_base.specs.names.Faults.{RefusesName};
ghost use Rattle.dt_base.specs.names.Machinery.Walking.{WalkTells};

use crate::Text;
use crate::names::fault::NameFault;
use crate::names::walk::{Outcome, State, ends, walk};
use std::alloc::{AllocError, Global};
use std::marker::Model;

/// The most bytes that a name has.
const MOST_BYTES: usize = 64;

/// A name: a letter, then letters, digits and underscores, of which the last is no underscore, 64 bytes
/// at most (DTDL v2, the property `name`).
///
/// Contracts see its bytes.
#[derive(Debug, Drop)]
pub struct Name {
    text: Text,
}

impl Model for Name {
    ghost use Rattle.std.specs.Prelude.{List, ℕ};
    ghost use Rattle.std.specs.Coded.{coded_list, coded_ℕ};
    ghost use Rattle.dt_base.specs.names.Grammar.{NameText};

    ghost Value = { List ℕ };

    ghost coded = { coded_list coded_ℕ };

    ghost view = { λ n. n.text };

    ghost invariant = { λ n. NameText n.text };
}

impl Name {
    /// Reads a name. It fails by the first fault of the text, of which `BadVersion` and `Reserved` never
    /// come, or where there is no memory.
    pub fn read(alloc: Global, text: &str) -> Result<Name, NameFault>
        ensures { MatchResult result (λ name. (name ≡ text.now) × NameText text.now) (RefusesName text.now) }
    {
        check(text.as_bytes())?;
        match Name::of(alloc, text) {
            Ok(name) => Ok(name),
            Err(_) => Err(NameFault::OutOfMemory),
        }
    }

    /// The name that a text is, where the caller knows that it is one, so that it is not read again. It fails where there
    /// is no memory.
    pub fn of(alloc: Global, text: &str) -> Result<Name, AllocError>
        requires { NameText text.now }
        ensures { IfOk result (λ name. name ≡ text.now) }
    {
        match Text::from_str(alloc, text) {
            Ok(text) => Ok(Name { text }),
            Err(_) => Err(AllocError),
        }
    }

    /// The bytes of the name as text.
    pub fn as_str(&self) -> &str
        ensures same { result.now ≡ self.now }
        ensures named { NameText self.now }
    {
        self.text.as_str()
    }

    /// An equal name in memory of its own. It fails where there is no memory.
    pub fn copy(&self, alloc: Global) -> Result<Name, AllocError>
        ensures { IfOk result (λ name. name ≡ self.now) }
    {
        Name::of(alloc, self.as_str())
    }
}

/// Whether a text is a name. Takes no memory.
pub fn is_name(text: &str) -> bool
    ensures { IsTrue result ↔ NameText text.now }
{
    text.len() <= MOST_BYTES && is_segment(text.as_bytes())
}

/// Whether bytes are a letter, then letters, digits and underscores, of which the last is no underscore.
fn is_segment(bytes: &[u8]) -> bool
    ensures { IsTrue result ↔ IsSegment bytes.now }
{
    match (bytes.first(), bytes.last()) {
        (Some(first), Some(last)) => {
            first.is_ascii_alphabetic() && last.is_ascii_alphanumeric() && are_name_bytes(bytes)
        }
        _ => false,
    }
}

/// Whether each byte is a letter, a digit or an underscore.
fn are_name_bytes(bytes: &[u8]) -> bool
    ensures { IsTrue result ↔ AllPass is_name_byte bytes.now }
{
    for byte in bytes {
        if !is_name_byte(*byte) {
            return false;
        }
    }
    true
}

/// Whether a byte is a letter, a digit or an underscore.
fn is_name_byte(byte: u8) -> bool
    ensures { result ≡ is_name_byte byte }
{
    byte.is_ascii_alphanumeric() || byte == b'_'
}

/// Refuses what is no name.
fn check(bytes: &[u8]) -> Result<(), NameFault>
    ensures { MatchResult result (λ _. NameText bytes.now) (RefusesName bytes.now) }
{
    if bytes.is_empty() {
        return Err(NameFault::Empty);
    }
    if bytes.len() > MOST_BYTES {
        return Err(NameFault::TooLong);
    }
    match walk(State::NameStart, MOST_BYTES, bytes) {
        Outcome::Whole(state) => finished(bytes, state),
        Outcome::Wrong { at, .. } => Err(NameFault::BadByte { at: at as u32 }),
    }
}

/// Refuses what is only the beginning of names.
fn finished(bytes: &[u8], state: State) -> Result<(), NameFault>
    requires some { 0 < length bytes.now }
    requires walked { WalkTells State.NameStart 64 bytes.now (Outcome.Whole state) }
    ensures { MatchResult result (λ _. NameText bytes.now) (RefusesName bytes.now) }
{
    if ends(state) {
        Ok(())
    } else {
        Err(NameFault::Ends)
    }
}
