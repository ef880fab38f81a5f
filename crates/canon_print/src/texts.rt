//! Members with texts.

ghost use Rattle.std.specs.Prelude.{◌≡◌, ◌++◌, ◌∷◌, ℕ, List, Bool, false, Option, Some, string_bytes, IfOk, OnOk};
ghost use Rattle.std.specs.Option.{option_map};
ghost use Rattle.json_tree.specs.Values.{Json, text};
ghost use Rattle.json_tree.specs.Printing.{quoted};
ghost use Rattle.canon_text.specs.Canonical.{id_value};
ghost use Rattle.canon_print.specs.Machinery.Bodies.{head_text, IsPrinted};

use crate::heads::push_head;
use dt_base::names::{Dtmi, Name};
use dt_base::{OutOfMemory, Text};
use json_tree::push_quoted;

/// Appends a member with a text.
pub(crate) fn push_text(
    out: &mut String,
    first: bool,
    head: &str,
    value: &str,
) -> Result<(), OutOfMemory>
    ensures { OnOk result ((key : List ℕ) → head.now ≡ head_text key
        → IsPrinted (string_bytes out.old) (string_bytes out.new) first false key (Some (text value.now))) }
{
    push_head(out, first, head)?;
    push_quoted(out, value)?;
    Ok(())
}

/// Appends a name between quotation marks. Nothing in it stands behind a backslash, so it is not looked through.
pub(crate) fn push_quoted_name(out: &mut String, name: &Name) -> Result<(), OutOfMemory>
    ensures { OnOk result (string_bytes out.new ≡ string_bytes out.old ++ quoted name.now) }
{
    out.push_str("\"")?;
    out.push_str(name.as_str())?;
    out.push_str("\"")?;
    Ok(())
}

/// Appends a member with a name.
pub(crate) fn push_name(
    out: &mut String,
    first: bool,
    head: &str,
    name: &Name,
) -> Result<(), OutOfMemory>
    ensures { OnOk result ((key : List ℕ) → head.now ≡ head_text key
        → IsPrinted (string_bytes out.old) (string_bytes out.new) first false key (Some (text name.now))) }
{
    push_head(out, first, head)?;
    push_quoted_name(out, name)?;
    Ok(())
}

/// Appends a member with a text, where there is one, and answers whether still none was printed.
pub(crate) fn push_optional_text(
    out: &mut String,
    first: bool,
    head: &str,
    value: &Option<Text>,
) -> Result<bool, OutOfMemory>
    ensures { IfOk result (λ after. (key : List ℕ) → head.now ≡ head_text key
        → IsPrinted (string_bytes out.old) (string_bytes out.new) first after key (option_map text value.now)) }
{
    match value {
        Some(value) => {
            push_text(out, first, head, value.as_str())?;
            Ok(false)
        }
        None => Ok(first),
    }
}

/// Appends a member with a name, where there is one, and answers whether still none was printed.
pub(crate) fn push_optional_name(
    out: &mut String,
    first: bool,
    head: &str,
    value: &Option<Name>,
) -> Result<bool, OutOfMemory>
    ensures { IfOk result (λ after. (key : List ℕ) → head.now ≡ head_text key
        → IsPrinted (string_bytes out.old) (string_bytes out.new) first after key (option_map text value.now)) }
{
    match value {
        Some(value) => {
            push_name(out, first, head, value)?;
            Ok(false)
        }
        None => Ok(first),
    }
}

/// Appends a member with an identifier, where there is one, and answers whether still none was printed.
pub(crate) fn push_optional_id(
    out: &mut String,
    first: bool,
    head: &str,
    value: &Option<Dtmi>,
) -> Result<bool, OutOfMemory>
    ensures { IfOk result (λ after. (key : List ℕ) → head.now ≡ head_text key
        → IsPrinted (string_bytes out.old) (string_bytes out.new) first after key (option_map id_value value.now)) }
{
    match value {
        Some(value) => {
            push_text(out, first, head, value.as_str())?;
            Ok(false)
        }
        None => Ok(first),
    }
}
