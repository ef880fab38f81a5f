//! The entries of enumerations.

ghost use Rattle.std.specs.Prelude.{◌≡◌, ◌++◌, Bool, false, Some, codes, map, string_bytes, OnOk};
ghost use Rattle.json_tree.specs.Values.{elements_of};
ghost use Rattle.json_tree.specs.Printing.{printed, printed_elements};
ghost use Rattle.canon_text.specs.Canonical.{enum_value, enum_entry_value, enum_entry_pair, value_schema_json};
ghost use Rattle.canon_text.specs.Objects.{list_in_order};
ghost use Rattle.canon_print.specs.Machinery.Bodies.{IsPrinted};

use crate::elements::push_untyped;
use crate::heads::{push_head, push_separator};
use crate::sorting::in_order;
use crate::texts::push_name;
use canon_text::of_integer;
use dt_base::OutOfMemory;
use dtdl_terms::{EnumEntry, EnumValue};
use json_tree::push_quoted;
use std::alloc::Global;

/// Appends the value of an entry.
fn push_enum_value(out: &mut String, value: &EnumValue) -> Result<(), OutOfMemory>
    ensures { OnOk result (string_bytes out.new ≡ string_bytes out.old ++ printed (enum_value value.now)) }
{
    match value {
        EnumValue::Number(number) => of_integer(*number).push(out)?,
        EnumValue::Word(word) => push_quoted(out, word.as_str())?,
    }
    Ok(())
}

/// Appends an entry of an enumeration.
fn push_enum_entry(alloc: Global, out: &mut String, entry: &EnumEntry) -> Result<(), OutOfMemory>
    ensures { OnOk result (string_bytes out.new ≡ string_bytes out.old ++ printed (enum_entry_value entry.now)) }
{
    let first = push_untyped(alloc, out, &entry.common)?;
    push_head(out, first, "\"enumValue\":")?;
    push_enum_value(out, &entry.value)?;
    push_name(out, false, "\"name\":", &entry.name)?;
    out.push_str("}")?;
    Ok(())
}

/// Appends entries, with commas between them, and the closing bracket.
fn push_lent_entries(
    alloc: Global,
    out: &mut String,
    entries: &[&EnumEntry],
) -> Result<(), OutOfMemory>
    ensures { OnOk result (string_bytes out.new ≡ string_bytes out.old ++ printed_elements (elements_of (map (λ e. enum_entry_value e.now) entries.now))) }
{
    for (position, entry) in entries.iter().enumerate() {
        push_separator(out, position)?;
        push_enum_entry(alloc, out, entry)?;
    }
    out.push_str("]")?;
    Ok(())
}

/// Appends the entries of an enumeration, in the order of their names.
pub(crate) fn push_enum_entries(
    alloc: Global,
    out: &mut String,
    entries: &[EnumEntry],
) -> Result<(), OutOfMemory>
    ensures { OnOk result (string_bytes out.new ≡ string_bytes out.old ++ printed (list_in_order (map enum_entry_pair entries.now))) }
{
    let list = in_order(alloc, entries)?;
    out.push_str("[")?;
    push_lent_entries(alloc, out, list.as_slice())?;
    Ok(())
}

/// Appends the member of the schema of an enumeration's values.
pub(crate) fn push_value_schema(
    out: &mut String,
    first: bool,
    of_text: bool,
) -> Result<(), OutOfMemory>
    ensures { OnOk result (IsPrinted (string_bytes out.old) (string_bytes out.new) first false (codes "valueSchema") (Some (value_schema_json of_text))) }
{
    if of_text {
        push_head(out, first, "\"valueSchema\":\"string\"")
    } else {
        push_head(out, first, "\"valueSchema\":\"integer\"")
    }
}
