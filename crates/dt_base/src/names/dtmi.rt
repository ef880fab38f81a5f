//! Digital twin model identifiers.

ghost use Rattle.std.specs.Prelude.{◌≡◌, ◌==◌, ◌↔◌, ◌<◌, ◌≤◌, length, position, IfOk, MatchResult, IsTrue, Some};
ghost use Rattle.std.specs.List.{join_with_byte, slice_split};
ghost use Rattle.std.specs.Ordering.{nat_cmp};
ghost use Rattle.std.specs.Cmp.Lexicographic.{slice_cmp};
ghost use Rattle.std.specs.String.{string_bytes};
ghost use Rattle.dt_base.specs.names.Grammar.{Identifier, HasDtmiForm, OwnDtmiText, IsStored, dtmi_text, is_reserved};
ghost use Rattle.dt_base.specs.names.Faults.{RefusesDtmi};
ghost use Rattle.dt_base.specs.names.Machinery.Walking.{run, wrong_at, WalkTells};

use crate::names::fault::NameFault;
use crate::names::walk::{Outcome, State, ends, version_of, walk};
use std::alloc::{AllocError, Global};
use std::cmp::Ordering;
use std::marker::Model;

/// The most bytes that a DTMI has.
const MOST_BYTES: usize = 2048;

/// How many bytes `dtmi:` has.
const OPENING: usize = 5;

/// A digital twin model identifier (DTMI) that is not reserved: `dtmi:`, segments with `:` between them,
/// `;` and a version, 2,048 bytes at most (DTDL v2, "Digital Twin Model Identifier"; that the texts that
/// begin with `dtmi:dtdl:` or `dtmi:standard:` are reserved is this project's own).
///
/// Contracts see its segments and its version. Identifiers are equal where their texts are, and ordered by the bytes of
/// these, in which versions stand as their digits do: `10` before `9`.
#[derive(Debug, Drop)]
pub struct Dtmi {
    text: String,
    path_end: u32,
    version: u32,
}

impl Model for Dtmi {
    ghost use Rattle.std.specs.String.{string_bytes};
    ghost use Rattle.dt_base.specs.names.Grammar.{Identifier, identifier_code, identifier_at, IsStored};

    ghost Value = { Identifier };

    ghost coded = { identifier_code };

    ghost view = { λ d. identifier_at (string_bytes d.text) d.path_end d.version };

    ghost invariant = { λ d. IsStored (string_bytes d.text) d.path_end d.version };
}

impl Dtmi {
    /// Reads an identifier. It fails by the first fault of the text, or where there is no memory.
    pub fn read(alloc: Global, text: &str) -> Result<Dtmi, NameFault>
        ensures { MatchResult result (OwnDtmiText text.now) (RefusesDtmi text.now) }
    {
        let form = check(text.as_bytes())?;
        match String::from_str(alloc, text) {
            Ok(text) => Ok(Dtmi {
                text,
                path_end: form.path_end,
                version: form.version,
            }),
            Err(_) => Err(NameFault::OutOfMemory),
        }
    }

    /// The text of the identifier. It fails where there is no memory.
    pub fn print(&self, alloc: Global) -> Result<String, AllocError>
        ensures { IfOk result (λ text. string_bytes text ≡ dtmi_text self.now) }
    {
        String::from_str(alloc, self.as_str())
    }

    /// The text of the identifier.
    pub fn as_str(&self) -> &str
        ensures same { result.now ≡ dtmi_text self.now }
        ensures own { OwnDtmiText (dtmi_text self.now) self.now }
    {
        self.text.as_str()
    }

    /// The version, from 1 to 999,999,999.
    pub fn version(&self) -> u32
        ensures { result ≡ self.now.version }
    {
        self.version
    }

    /// An equal identifier in memory of its own. It fails where there is no memory.
    pub fn copy(&self, alloc: Global) -> Result<Dtmi, AllocError>
        ensures { IfOk result (λ copy. copy ≡ self.now) }
    {
        let text = String::from_str(alloc, self.text.as_str())?;
        Ok(Dtmi {
            text,
            path_end: self.path_end,
            version: self.version,
        })
    }

    /// The segments with the colons between them.
    fn path(&self) -> &[u8]
        ensures value { result.now ≡ join_with_byte 58 self.now.segments }
        ensures parts { slice_split (λ b. b == 58) result.now ≡ self.now.segments }
    {
        &self.text.as_bytes()[OPENING..self.path_end as usize]
    }
}

impl PartialEq for Dtmi {
    ghost use Rattle.std.proofs.Common.{rules};
    ghost use Rattle.std.specs.Cmp.Rules.{comparing};
    ghost use Rattle.dt_base.specs.names.Grammar.{id_eq};

    ghost eq = { id_eq };

    ghost laws = { Prim.search (comparing, rules) };

    fn eq(&self, other: &Dtmi) -> bool {
        self.text == other.text
    }
}

impl Eq for Dtmi {
    ghost use Rattle.std.proofs.Common.{rules};
    ghost use Rattle.std.specs.Cmp.Rules.{comparing};

    ghost laws = { Prim.search (comparing, rules) };
}

impl PartialOrd for Dtmi {
    ghost use Rattle.std.proofs.Common.{rules};
    ghost use Rattle.std.specs.Cmp.Rules.{comparing};
    ghost use Rattle.std.specs.Ordering.{as_partial_cmp};
    ghost use Rattle.dt_base.specs.names.Grammar.{id_cmp};

    ghost partial_cmp = { as_partial_cmp id_cmp };

    ghost laws = { Prim.search (comparing, rules) };

    fn partial_cmp(&self, other: &Dtmi) -> Option<Ordering> {
        Some(self.cmp(other))
    }
}

impl Ord for Dtmi {
    ghost use Rattle.std.proofs.Common.{rules};
    ghost use Rattle.std.specs.Cmp.Rules.{comparing};
    ghost use Rattle.dt_base.specs.names.Grammar.{id_cmp};

    ghost cmp = { id_cmp };

    ghost total = { Prim.search (comparing, rules) };

    ghost matches_partial_cmp = { Prim.search (comparing, rules) };

    ghost matches_eq = { Prim.search (comparing, rules) };

    fn cmp(&self, other: &Dtmi) -> Ordering {
        order(self, other)
    }
}

/// Whether two identifiers have equal segments, whatever their versions.
pub fn same_path(a: &Dtmi, b: &Dtmi) -> bool
    ensures { IsTrue result ↔ (a.now.segments ≡ b.now.segments) }
{
    a.path() == b.path()
}

/// The order of the printed bytes, in which versions stand as their digits do: `10` before `9`.
pub fn order(a: &Dtmi, b: &Dtmi) -> Ordering
    ensures bytes { result ≡ slice_cmp nat_cmp (dtmi_text a.now) (dtmi_text b.now) }
    ensures equal { (result ≡ Ordering.Equal) ↔ (a.now ≡ b.now) }
{
    a.as_str().cmp(b.as_str())
}

/// Whether a text is of the grammar of DTMIs, however long it is; reserved ones are of it too.
pub fn has_dtmi_form(text: &str) -> bool
    ensures { IsTrue result ↔ ((i : Identifier) × HasDtmiForm text.now i) }
{
    let bytes = text.as_bytes();
    // With so much room no byte is wrong for the bound's sake.
    match walk(State::WantD, bytes.len() + MOST_BYTES, bytes) {
        Outcome::Whole(state) => ends(state),
        Outcome::Wrong { .. } => false,
    }
}

/// Whether a text begins as the reserved identifiers do.
pub fn is_reserved_id(text: &str) -> bool
    ensures { result ≡ is_reserved text.now }
{
    is_reserved(text.as_bytes())
}

/// What a text that is read tells beside its bytes.
#[derive(Clone, Copy)]
struct Form {
    path_end: u32,
    version: u32,
}

/// Refuses what is no DTMI that may be used.
fn check(bytes: &[u8]) -> Result<Form, NameFault>
    ensures { MatchResult result (λ form. IsStored bytes.now form.path_end form.version) (RefusesDtmi bytes.now) }
{
    if bytes.is_empty() {
        return Err(NameFault::Empty);
    }
    if bytes.len() > MOST_BYTES {
        return Err(NameFault::TooLong);
    }
    match walk(State::WantD, MOST_BYTES, bytes) {
        Outcome::Whole(state) => finished(bytes, state),
        Outcome::Wrong { at, state } => Err(wrong(at, state)),
    }
}

/// Refuses what is only the beginning of DTMIs.
fn finished(bytes: &[u8], state: State) -> Result<Form, NameFault>
    requires some { 0 < length bytes.now }
    requires short { length bytes.now ≤ 2048 }
    requires walked { WalkTells State.WantD 2048 bytes.now (Outcome.Whole state) }
    ensures { MatchResult result (λ form. IsStored bytes.now form.path_end form.version) (RefusesDtmi bytes.now) }
{
    match version_of(state) {
        Some(version) => own_form(bytes, version),
        None => Err(NameFault::Ends),
    }
}

/// Refuses what is reserved.
fn own_form(bytes: &[u8], version: u32) -> Result<Form, NameFault>
    requires walked { run State.WantD bytes.now ≡ Some (State.Version version) }
    requires short { length bytes.now ≤ 2048 }
    ensures { MatchResult result (λ form. IsStored bytes.now form.path_end form.version) (RefusesDtmi bytes.now) }
{
    if is_reserved(bytes) {
        return Err(NameFault::Reserved);
    }
    let path_end = end_of_path(bytes).unwrap();
    Ok(Form {
        path_end: path_end as u32,
        version,
    })
}

/// Where the `;` stands.
fn end_of_path(bytes: &[u8]) -> Option<usize>
    ensures { result ≡ position (λ b. b == 59) bytes.now }
{
    bytes.iter().position(|byte| *byte == b';')
}

fn is_reserved(bytes: &[u8]) -> bool
    ensures { result ≡ is_reserved bytes.now }
{
    bytes.starts_with(b"dtmi:dtdl:") || bytes.starts_with(b"dtmi:standard:")
}

/// The fault of a wrong byte, which is the version's where the `;` is behind.
fn wrong(at: usize, state: State) -> NameFault
    requires { at < 2048 }
    ensures { result ≡ wrong_at at state }
{
    match state {
        State::VersionStart | State::Version(_) => NameFault::BadVersion,
        _ => NameFault::BadByte { at: at as u32 },
    }
}
