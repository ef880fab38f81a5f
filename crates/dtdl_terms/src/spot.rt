//! Places of an interface.

ghost use Rattle.std.specs.Prelude.{◌≡◌, ◌++◌, string_bytes, IfOk, OnOk};
ghost use Rattle.dtdl_terms.specs.Spots.{spot_text};

use crate::uploaded::Uploaded;
use dt_base::{OutOfMemory, Text};
use std::alloc::{AllocError, Global};

/// A place of an interface at which a rule on sets of interfaces may be broken (this project's own).
#[derive(Clone, Copy, Debug, PartialEq, Eq)]
pub enum Spot {
    /// The interface as a whole.
    Whole,
    /// The member `@id`.
    Id,
    /// The member `extends`.
    Parents,
    /// The parent at this position of `extends`, counted from 0.
    Parent(u64),
    /// The member `schema` of the content at this position of `contents`, counted from 0.
    ContentSchema(u64),
}

/// The JSON pointer (RFC 6901) of a place of an interface in its document. A parent that `extends` names as a text
/// alone stands at `extends`. Fails only for want of memory.
pub fn spot_pointer(alloc: Global, uploaded: &Uploaded, spot: &Spot) -> Result<Text, OutOfMemory>
    ensures { IfOk result (λ text. text ≡ uploaded.now.base ++ spot_text uploaded.now.parents_as_text spot.now) }
{
    let mut out = String::from_str(alloc, uploaded.base.as_str())?;
    push_spot(&mut out, uploaded.parents_as_text, *spot)?;
    Ok(Text::from_string(out))
}

/// Appends the pointer from the interface on.
fn push_spot(out: &mut String, as_text: bool, spot: Spot) -> Result<(), AllocError>
    ensures { OnOk result (string_bytes out.new ≡ string_bytes out.old ++ spot_text as_text spot) }
{
    match spot {
        Spot::Whole => Ok(()),
        Spot::Id => out.push_str("/@id"),
        Spot::Parents => out.push_str("/extends"),
        Spot::Parent(_) if as_text => out.push_str("/extends"),
        Spot::Parent(at) => write!(out, "/extends/{at}"),
        Spot::ContentSchema(at) => write!(out, "/contents/{at}/schema"),
    }
}
