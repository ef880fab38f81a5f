//! Texts of few bytes.

ghost use Rattle.std.specs.Prelude.{◌≡◌, ◌<◌, ◌≤◌, length, MatchOption, IsUtf8};

use std::marker::Model;

/// How many bytes a short text has room for.
pub(crate) const ROOM: usize = 30;

/// A text of at most `ROOM` bytes, which lie in the value itself. Contracts see the list of its bytes.
#[derive(Debug, Drop)]
pub(crate) struct Short {
    len: u8,
    bytes: [u8; ROOM],
}

impl Model for Short {
    ghost use Rattle.std.specs.Prelude.{◌≡◌, ◌≤◌, ℕ, List, length, take, IsUtf8};
    ghost use Rattle.std.specs.Coded.{coded_list, coded_ℕ};

    ghost Value = { List ℕ };

    ghost coded = { coded_list coded_ℕ };

    ghost view = { λ s. take s.len s.bytes };

    ghost invariant = { λ s. (s.len ≤ 30) × ∥ IsUtf8 (take s.len s.bytes) ∥₁ };
}

impl Short {
    /// The text with these bytes, where there is room for them.
    pub(crate) fn from_str(text: &str) -> Option<Short>
        ensures { MatchOption result (30 < length text.now) (λ s. s ≡ text.now) }
    {
        let len = text.len();
        if len > ROOM {
            return None;
        }
        let mut bytes = [0; ROOM];
        bytes[..len].copy_from_slice(text.as_bytes());
        Some(Short {
            len: len as u8,
            bytes,
        })
    }

    /// Its bytes.
    pub(crate) fn as_bytes(&self) -> &[u8]
        ensures same { result.now ≡ self.now }
        ensures utf8 { IsUtf8 result.now }
    {
        &self.bytes[..self.len as usize]
    }

    /// Its bytes, as text.
    pub(crate) fn as_str(&self) -> &str
        ensures { result.now ≡ self.now }
    {
        unsafe { str::from_utf8_unchecked(self.as_bytes()) }
    }
}
