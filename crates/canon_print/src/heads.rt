//! What stands before values: commas and keys.

ghost use Rattle.std.specs.Prelude.{◌≡◌, ◌++◌, string_bytes, OnOk};
ghost use Rattle.json_tree.specs.Machinery.Pieces.{comma_before};
ghost use Rattle.canon_print.specs.Machinery.Bodies.{comma_unless};

use dt_base::OutOfMemory;

/// Appends a comma, unless this is the first position.
pub(crate) fn push_separator(out: &mut String, position: usize) -> Result<(), OutOfMemory>
    ensures { OnOk result (string_bytes out.new ≡ string_bytes out.old ++ comma_before position) }
{
    if position > 0 {
        out.push_str(",")?;
    }
    Ok(())
}

/// Appends a comma, unless this is the first member.
fn push_comma(out: &mut String, first: bool) -> Result<(), OutOfMemory>
    ensures { OnOk result (string_bytes out.new ≡ string_bytes out.old ++ comma_unless first) }
{
    if !first {
        out.push_str(",")?;
    }
    Ok(())
}

/// Appends the head of a member, its key and the colon, behind a comma unless it is the first.
pub(crate) fn push_head(out: &mut String, first: bool, head: &str) -> Result<(), OutOfMemory>
    ensures { OnOk result (string_bytes out.new ≡ (string_bytes out.old ++ comma_unless first) ++ head.now) }
{
    push_comma(out, first)?;
    out.push_str(head)?;
    Ok(())
}
