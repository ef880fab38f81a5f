ghost use Rattle.std.specs.Prelude.{◌≡◌, ◌≤◌, ℕ, List, [], ◌∷◌, ◌++◌, length, reverse, map, All, Some, None, if◌then◌else◌, ◌==◌};
ghost use Rattle.std.specs.List.{list_any, slice_split};
ghost use Rattle.std.specs.Str.Parse.{digits_value};
ghost use Rattle.httparse.specs.Ascii.{comma};
ghost use Rattle.httparse.specs.Grammar.{skip_ows};
ghost use Rattle.httparse.specs.Spans.{IsHeaderWithin, header_bytes};
ghost use Rattle.http_ends.specs.Fields.{is_field_named, values_named, is_content_length, is_framed, length_said, lengths, is_connection_option, says_close};
ghost use Rattle.http_ends.specs.reading.Finding.{Finds};

use httparse::is_space_or_tab;
use httparse::spans::{HeaderSpan, Span};

/// The most digits of a length.
const MOST_DIGITS: usize = 18;

/// Whether the field has this name.
fn is_named(bytes: &[u8], field: &HeaderSpan, name: &[u8]) -> bool
    requires { IsHeaderWithin (length bytes.now) field.now }
    ensures { result ≡ is_field_named name.now (header_bytes bytes.now field.now) }
{
    field.name.of(bytes).eq_ignore_ascii_case(name)
}

/// The fields of one name: the first, and whether there is another.
#[derive(Clone, Copy, Debug)]
pub(crate) struct Found {
    pub first: Option<Span>,
    pub again: bool,
}

/// Finds the values of the fields of this name.
pub(crate) fn find_named(bytes: &[u8], fields: &[HeaderSpan], name: &[u8]) -> Found
    requires { All (IsHeaderWithin (length bytes.now)) fields.now }
    ensures { Finds bytes.now result (values_named name.now (map (header_bytes bytes.now) fields.now)) }
{
    let mut first = None;
    'finding: for field in fields {
        if is_named(bytes, field, name) {
            if first.is_some() {
                return Found { first, again: true };
            }
            first = Some(field.value);
        }
    }
    Found {
        first,
        again: false,
    }
}

/// The number that 1 to 18 digits are.
fn number_of(text: &[u8]) -> Option<u64>
    ensures { result ≡ (if is_content_length text.now then Some (digits_value 10 text.now) else None) }
{
    if text.is_empty() || text.len() > MOST_DIGITS {
        return None;
    }
    let mut number: u64 = 0;
    'reading: for byte in text {
        if !byte.is_ascii_digit() {
            return None;
        }
        number = number * 10 + u64::from(*byte - b'0');
    }
    Some(number)
}

/// The length that the fields say, if they say one. None where they say two, or one that is no number.
pub(crate) fn content_length(bytes: &[u8], fields: &[HeaderSpan]) -> Option<Option<u64>>
    requires { All (IsHeaderWithin (length bytes.now)) fields.now }
    ensures { let values = lengths (map (header_bytes bytes.now) fields.now) in
        result ≡ (if is_framed values then Some (length_said values) else None) }
{
    let found = find_named(bytes, fields, b"content-length");
    match found.first {
        None => Some(None),
        Some(_) if found.again => None,
        Some(value) => Some(Some(number_of(value.of(bytes))?)),
    }
}

fn trim_start(mut text: &[u8]) -> &[u8]
    ensures { result.now ≡ skip_ows text.now }
{
    'trimming: while let [first, rest @ ..] = text
        && is_space_or_tab(*first)
    {
        text = rest;
    }
    text
}

fn trim_end(mut text: &[u8]) -> &[u8]
    ensures { result.now ≡ reverse (skip_ows (reverse text.now)) }
{
    'trimming: while let [rest @ .., last] = text
        && is_space_or_tab(*last)
    {
        text = rest;
    }
    text
}

/// Whether the text without the spaces and tabs around it is this connection option (RFC 9110, section 7.6.1), in any
/// case.
fn is_connection_option(text: &[u8], option: &[u8]) -> bool
    ensures { result ≡ is_connection_option option.now text.now }
{
    trim_end(trim_start(text)).eq_ignore_ascii_case(option)
}

/// Whether this connection option stands between the commas of a value.
fn has_connection_option(value: &[u8], option: &[u8]) -> bool
    ensures { result ≡ list_any (is_connection_option option.now) (slice_split (λ b. b == comma) value.now) }
{
    value
        .split(|byte| *byte == b',')
        .any(|text| is_connection_option(text, option))
}

/// Whether a field `Connection` has the option `close`.
pub(crate) fn says_close(bytes: &[u8], fields: &[HeaderSpan]) -> bool
    requires { All (IsHeaderWithin (length bytes.now)) fields.now }
    ensures { result ≡ list_any says_close (map (header_bytes bytes.now) fields.now) }
{
    'asking: for field in fields {
        if is_named(bytes, field, b"connection")
            && has_connection_option(field.value.of(bytes), b"close")
        {
            return true;
        }
    }
    false
}
