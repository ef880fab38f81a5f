ghost use Rattle.std.specs.Prelude.{◌≡◌, IfOk, string_bytes};

use crate::OutOfMemory;
use crate::short::Short;
use std::alloc::Global;
use std::cmp::Ordering;
use std::marker::Model;

/// A text in UTF-8 that contracts see as the list of its bytes. Texts are ordered by their bytes, so in
/// the order of their scalar values, and a text that another begins with comes before it.
///
/// A text of at most 30 bytes is held in place unless it was made of a `String`, so that most identifiers and keys take no
/// memory of their own and are compared where they lie.
#[derive(Debug, Drop)]
pub struct Text {
    held: Held,
}

/// Where the bytes of a text lie.
#[derive(Debug, Drop)]
enum Held {
    InPlace(Short),
    Apart(String),
}

impl Model for Text {
    ghost use Rattle.std.specs.Prelude.{ℕ, List, string_bytes};
    ghost use Rattle.std.specs.Coded.{coded_list, coded_ℕ};

    ghost Value = { List ℕ };

    ghost coded = { coded_list coded_ℕ };

    ghost use Rattle.dt_base.specs.Texts.{held_bytes};

    ghost view = { λ t. held_bytes t.held };
}

impl Text {
    /// The text with the bytes of `text`.
    pub fn from_str(alloc: Global, text: &str) -> Result<Text, OutOfMemory>
        ensures { IfOk result (λ t. t ≡ text.now) }
    {
        if let Some(short) = Short::from_str(text) {
            return Ok(Text {
                held: Held::InPlace(short),
            });
        }
        let string = String::from_str(alloc, text)?;
        Ok(Text {
            held: Held::Apart(string),
        })
    }

    /// The text of a `String`, which is moved.
    pub fn from_string(string: String) -> Text
        ensures { result ≡ string_bytes string }
    {
        Text {
            held: Held::Apart(string),
        }
    }

    /// The bytes as a `String`, which is moved where the text was made of one. Fails only for want of memory.
    pub fn into_string(self, alloc: Global) -> Result<String, OutOfMemory>
        ensures { IfOk result (λ string. string_bytes string ≡ self) }
    {
        match self.held {
            Held::InPlace(short) => Ok(String::from_str(alloc, short.as_str())?),
            Held::Apart(string) => Ok(string),
        }
    }

    /// Its bytes, as text.
    pub fn as_str(&self) -> &str
        ensures { result.now ≡ self.now }
    {
        match &self.held {
            Held::InPlace(short) => short.as_str(),
            Held::Apart(string) => string.as_str(),
        }
    }

    /// Its bytes.
    pub fn as_bytes(&self) -> &[u8]
        ensures { result.now ≡ self.now }
    {
        match &self.held {
            Held::InPlace(short) => short.as_bytes(),
            Held::Apart(string) => string.as_bytes(),
        }
    }

    /// An equal text.
    pub fn copy(&self, alloc: Global) -> Result<Text, OutOfMemory>
        ensures { IfOk result (λ t. t ≡ self.now) }
    {
        Text::from_str(alloc, self.as_str())
    }
}

impl PartialEq for Text {
    ghost use Rattle.std.specs.Prelude.{bytes_eq};
    ghost use Rattle.std.proofs.Common.{rules};
    ghost use Rattle.std.specs.Cmp.Rules.{comparing};

    ghost eq = { bytes_eq };

    ghost laws = { Prim.search (comparing, rules) };

    fn eq(&self, other: &Text) -> bool {
        self.as_str() == other.as_str()
    }
}

impl Eq for Text {
    ghost use Rattle.std.proofs.Common.{rules};
    ghost use Rattle.std.specs.Cmp.Rules.{comparing};

    ghost laws = { Prim.search (comparing, rules) };
}

impl PartialOrd for Text {
    ghost use Rattle.std.proofs.Common.{rules};
    ghost use Rattle.std.specs.Cmp.Rules.{comparing};
    ghost use Rattle.std.specs.Cmp.Lexicographic.{slice_cmp};
    ghost use Rattle.std.specs.Ordering.{as_partial_cmp, nat_cmp};

    ghost partial_cmp = { as_partial_cmp (slice_cmp nat_cmp) };

    ghost laws = { Prim.search (comparing, rules) };

    fn partial_cmp(&self, other: &Text) -> Option<Ordering> {
        Some(self.cmp(other))
    }
}

impl Ord for Text {
    ghost use Rattle.std.proofs.Common.{rules};
    ghost use Rattle.std.specs.Cmp.Rules.{comparing};
    ghost use Rattle.std.specs.Cmp.Lexicographic.{slice_cmp};
    ghost use Rattle.std.specs.Ordering.{nat_cmp};

    ghost cmp = { slice_cmp nat_cmp };

    ghost total = { Prim.search (comparing, rules) };

    ghost matches_partial_cmp = { Prim.search (comparing, rules) };

    ghost matches_eq = { Prim.search (comparing, rules) };

    fn cmp(&self, other: &Text) -> Ordering {
        self.as_str().cmp(other.as_str())
    }
}
