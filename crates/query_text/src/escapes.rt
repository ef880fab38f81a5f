//! Texts in single quotes.

ghost use Rattle.std.specs.Prelude.{◌≡◌, ◌<◌, ◌≤◌, ◌++◌, string_bytes, length, get_or, IsTrue, IsFalse, OnOk};
ghost use Rattle.std.specs.List.{slice_range, AllByRecursion};
ghost use Rattle.query_text.specs.Printed.{escaped_query_byte, escaped_query, quoted_query};
ghost use Rattle.query_text.specs.Machinery.Parts.{IsPlainInQuery, IsEscapedInQuery};

use std::alloc::AllocError;

/// A byte that is printed as it is.
fn is_plain(byte: u8) -> bool
    ensures plain { IsTrue result → IsPlainInQuery byte }
    ensures other { IsFalse result → IsEscapedInQuery byte }
{
    byte != b'\\' && byte != b'\'' && byte != b'\n' && byte != b'\r' && byte != b'\t'
}

/// Behind the bytes that are printed as they are.
fn plain_end(bytes: &[u8], at: usize) -> usize
    requires { at ≤ length bytes.now }
    ensures forward { at ≤ result }
    ensures within { result ≤ length bytes.now }
    ensures plain { AllByRecursion IsPlainInQuery (slice_range bytes.now at result) }
    ensures next { result < length bytes.now → IsEscapedInQuery (get_or bytes.now result 0) }
{
    let mut end = at;
    'plain: while end < bytes.len() && is_plain(bytes[end]) {
        end += 1;
    }
    end
}

/// Appends a byte that is not printed as it is.
fn push_escape(out: &mut String, byte: u8) -> Result<(), AllocError>
    requires { IsEscapedInQuery byte }
    ensures { OnOk result (string_bytes out.new ≡ string_bytes out.old ++ escaped_query_byte byte) }
{
    match byte {
        b'\\' => out.push_str("\\\\"),
        b'\'' => out.push_str("\\'"),
        b'\n' => out.push_str("\\n"),
        b'\r' => out.push_str("\\r"),
        _ => out.push_str("\\t"),
    }
}

/// Appends the characters of a text.
fn push_escaped(out: &mut String, text: &str) -> Result<(), AllocError>
    ensures { OnOk result (string_bytes out.new ≡ string_bytes out.old ++ escaped_query text.now) }
{
    let bytes = text.as_bytes();
    let mut at = 0;
    'runs: while at < bytes.len() {
        let end = plain_end(bytes, at);
        out.push_str(&text[at..end])?;
        if end == bytes.len() {
            return Ok(());
        }
        push_escape(out, bytes[end])?;
        at = end + 1;
    }
    Ok(())
}

/// Appends a text in quotes.
pub(crate) fn push_quoted(out: &mut String, text: &str) -> Result<(), AllocError>
    ensures { OnOk result (string_bytes out.new ≡ string_bytes out.old ++ quoted_query text.now) }
{
    out.push('\'')?;
    push_escaped(out, text)?;
    out.push('\'')
}
