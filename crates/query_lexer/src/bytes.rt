//! Bytes of one kind that stand one after another.

ghost use Rattle.std.specs.Prelude.{◌≡◌, ◌<◌, ◌≤◌, ℕ, length, slice_index, true, false};
ghost use Rattle.query_terms.specs.tokens.Spellings.{is_space, is_name_start, is_query_name_byte, is_number_start};
ghost use Rattle.query_lexer.specs.Machinery.Spans.{is_number_byte, is_plain};

/// The byte at a position, and 0, which no token has, behind the end.
pub(crate) fn byte_at(bytes: &[u8], at: usize) -> u8
    ensures { result ≡ slice_index bytes.now at }
{
    if at < bytes.len() { bytes[at] } else { 0 }
}

fn is_space(byte: u8) -> bool
    ensures { result ≡ is_space byte }
{
    byte == b' ' || byte == b'\t' || byte == b'\n' || byte == b'\r'
}

pub(crate) fn is_name_start(byte: u8) -> bool
    ensures { result ≡ is_name_start byte }
{
    byte.is_ascii_alphabetic() || byte == b'_' || byte == b'$'
}

fn is_name_byte(byte: u8) -> bool
    ensures { result ≡ is_query_name_byte byte }
{
    byte.is_ascii_alphanumeric() || byte == b'_' || byte == b'$'
}

/// Whether literals begin with the byte.
pub(crate) fn is_number_start(byte: u8) -> bool
    ensures { result ≡ is_number_start byte }
{
    byte == b'-' || (b'0' <= byte && byte <= b'9')
}

/// Whether the byte stands in literals: a digit, a sign, a point or the mark of an exponent.
fn is_number_byte(byte: u8) -> bool
    ensures { result ≡ is_number_byte byte }
{
    is_number_start(byte) || byte == b'.' || byte == b'+' || byte == b'e' || byte == b'E'
}

/// Whether the byte stands for itself in a text in quotes.
fn is_plain(byte: u8) -> bool
    ensures { result ≡ is_plain byte }
{
    32 <= byte && byte != b'\'' && byte != b'\\'
}

/// How many bytes of white space stand in front.
pub(crate) fn space_len(bytes: &[u8]) -> usize
    ensures within { result ≤ length bytes.now }
    ensures all { (k : ℕ) → k < result → is_space (slice_index bytes.now k) ≡ true }
    ensures next { is_space (slice_index bytes.now result) ≡ false }
{
    let mut end = 0;
    'bytes: while is_space(byte_at(bytes, end)) {
        end += 1;
    }
    end
}

/// How many bytes of a name stand in front.
pub(crate) fn name_len(bytes: &[u8]) -> usize
    ensures within { result ≤ length bytes.now }
    ensures all { (k : ℕ) → k < result → is_query_name_byte (slice_index bytes.now k) ≡ true }
    ensures next { is_query_name_byte (slice_index bytes.now result) ≡ false }
{
    let mut end = 0;
    'bytes: while is_name_byte(byte_at(bytes, end)) {
        end += 1;
    }
    end
}

/// How many bytes that stand in literals stand in front.
pub(crate) fn number_len(bytes: &[u8]) -> usize
    ensures within { result ≤ length bytes.now }
    ensures all { (k : ℕ) → k < result → is_number_byte (slice_index bytes.now k) ≡ true }
    ensures next { is_number_byte (slice_index bytes.now result) ≡ false }
{
    let mut end = 0;
    'bytes: while is_number_byte(byte_at(bytes, end)) {
        end += 1;
    }
    end
}

/// How many bytes in front stand for themselves in a text in quotes.
pub(crate) fn plain_len(bytes: &[u8]) -> usize
    ensures within { result ≤ length bytes.now }
    ensures all { (k : ℕ) → k < result → is_plain (slice_index bytes.now k) ≡ true }
    ensures next { is_plain (slice_index bytes.now result) ≡ false }
{
    let mut end = 0;
    'bytes: while is_plain(byte_at(bytes, end)) {
        end += 1;
    }
    end
}
