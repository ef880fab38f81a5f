//! Tokens.

ghost use Rattle.std.specs.Prelude.{◌≡◌, ◌++◌, IfOk, OnOk, string_bytes};
ghost use Rattle.graph_steps.specs.Pages.{token_part, token_of};
ghost use Rattle.graph_steps.specs.paging.Machinery.Joining.{separator};

use dt_base::{OutOfMemory, Text};
use percent_encoding::{NON_ALPHANUMERIC, percent_encode};
use std::alloc::Global;

/// Puts the bytes of an id behind a text, percent-encoded.
fn push_part(text: &mut String, id: &[u8]) -> Result<(), OutOfMemory>
    ensures { OnOk result (string_bytes text.new ≡ string_bytes text.old ++ token_part id.now) }
{
    percent_encode(id, NON_ALPHANUMERIC).append_to(text)?;
    Ok(())
}

/// Puts a `/` behind a text, where an id stands there already.
fn separate(text: &mut String, ids: usize) -> Result<(), OutOfMemory>
    ensures { OnOk result (string_bytes text.new ≡ string_bytes text.old ++ separator ids) }
{
    if ids > 0 {
        text.push_str("/")?;
    }
    Ok(())
}

/// The token of a key: its ids with every byte but letters and digits percent-encoded, and a `/` between them. Fails only
/// for want of memory.
pub fn token_text(alloc: Global, ids: &[Text]) -> Result<Text, OutOfMemory>
    ensures { IfOk result (λ text. text ≡ token_of ids.now) }
{
    let mut text = String::new(alloc);
    'ids: for (i, id) in ids.iter().enumerate() {
        separate(&mut text, i)?;
        push_part(&mut text, id.as_bytes())?;
    }
    Ok(Text::from_string(text))
}
