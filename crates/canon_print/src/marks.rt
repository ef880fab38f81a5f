//! Members with marks and bounds.

ghost use Rattle.std.specs.Prelude.{◌≡◌, codes, string_bytes, IfOk};
ghost use Rattle.std.specs.Option.{option_map};
ghost use Rattle.canon_text.specs.Canonical.{writable_value, most_value};
ghost use Rattle.canon_print.specs.Machinery.Bodies.{IsPrinted};

use crate::heads::push_head;
use canon_text::of_size;
use dt_base::OutOfMemory;

/// Appends the mark of what is writable, and answers whether still no member was printed.
pub(crate) fn push_writable(
    out: &mut String,
    first: bool,
    writable: bool,
) -> Result<bool, OutOfMemory>
    ensures { IfOk result (λ after. IsPrinted (string_bytes out.old) (string_bytes out.new) first after (codes "writable") (writable_value writable)) }
{
    if !writable {
        return Ok(first);
    }
    push_head(out, first, "\"writable\":true")?;
    Ok(false)
}

/// Appends a bound, where there is one, and answers whether still no member was printed.
pub(crate) fn push_most(
    out: &mut String,
    first: bool,
    most: Option<u32>,
) -> Result<bool, OutOfMemory>
    ensures { IfOk result (λ after. IsPrinted (string_bytes out.old) (string_bytes out.new) first after (codes "maxMultiplicity") (option_map most_value most)) }
{
    match most {
        Some(most) => {
            push_head(out, first, "\"maxMultiplicity\":")?;
            of_size(most).push(out)?;
            Ok(false)
        }
        None => Ok(first),
    }
}
