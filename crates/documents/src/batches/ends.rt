//! Where an array begins, and where a batch of its elements ends.

ghost use Rattle.std.specs.Prelude.{◌≡◌, ◌<◌, ◌≤◌, length, slice_index, true, IfSome};
ghost use Rattle.json_tree.specs.Grammar.{IsSpace, Spells};
ghost use Rattle.json_tree.specs.Values.{Json};
ghost use Rattle.documents.specs.batches.Batches.{rest_text};

use memchr::memchr2;

/// How many bytes a batch has at least, unless it is the last one: the values of so many lie in the caches of a processor.
pub(crate) const LEAST: usize = 4096;

/// White space between the tokens of a text (RFC 8259, section 2).
fn is_space(byte: u8) -> bool
    ensures { result ≡ true → IsSpace byte }
{
    matches!(byte, b' ' | b'\t' | b'\n' | b'\r')
}

/// The position behind white space and the bracket that opens an array (RFC 8259, section 5), where the text begins with these.
/// What spells a value from there on, behind such a bracket, spells it as a whole.
pub fn array_start(bytes: &[u8]) -> Option<usize>
    ensures within { IfSome result (λ at. at ≤ length bytes.now) }
    ensures spells { IfSome result (λ at. (v : Json) → Spells (rest_text bytes.now at) v → Spells bytes.now v) }
{
    let mut at = 0;
    'spaces: while at < bytes.len() && is_space(bytes[at]) {
        at += 1;
    }
    if at < bytes.len() && bytes[at] == b'[' {
        return Some(at + 1);
    }
    None
}

/// Behind the quotation mark that ends a text, or else the end of the bytes.
fn text_end(bytes: &[u8], at: usize) -> usize
    requires { at ≤ length bytes.now }
    ensures forward { at ≤ result }
    ensures within { result ≤ length bytes.now }
{
    let mut at = at;
    'text: while at < bytes.len() {
        let Some(before) = memchr2(b'"', b'\\', &bytes[at..]) else {
            return bytes.len();
        };
        let mark = at + before;
        if bytes[mark] == b'"' {
            return mark + 1;
        }
        at = mark + 2;
    }
    bytes.len()
}

/// The position of the comma behind a batch that begins at a position, or else the end of the bytes. Where the text is that of an
/// array, the comma stands between two of its elements; where it is not, no more is said than that a comma stands there.
pub fn batch_end(bytes: &[u8], at: usize) -> usize
    requires { at ≤ length bytes.now }
    ensures forward { at ≤ result }
    ensures within { result ≤ length bytes.now }
    ensures comma { result < length bytes.now → slice_index bytes.now result ≡ 44 }
{
    let start = at;
    let mut at = at;
    let mut depth = 0usize;
    'batch: while at < bytes.len() {
        match bytes[at] {
            b'"' => {
                at = text_end(bytes, at + 1);
                continue 'batch;
            }
            b'[' | b'{' => depth += 1,
            b']' | b'}' => {
                if depth == 0 {
                    return bytes.len();
                }
                depth -= 1;
            }
            b',' => {
                if depth == 0 && at - start >= LEAST {
                    return at;
                }
            }
            _ => {}
        }
        at += 1;
    }
    bytes.len()
}
