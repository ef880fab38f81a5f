//! The lengths of texts between quotation marks.

ghost use Rattle.std.specs.Prelude.{◌≡◌, ◌+◌, ◌<◌, length, MatchOption};
ghost use Rattle.json_tree.specs.Printing.{escaped_byte, quoted};

use crate::spending::spent;

/// How many bytes a byte of a text is printed as, beside the first.
fn more_bytes(byte: u8) -> u64
    ensures { result + 1 ≡ length (escaped_byte byte) }
{
    match byte {
        b'"' | b'\\' | 8 | 9 | 10 | 12 | 13 => 1,
        _ if byte < 32 => 5,
        _ => 0,
    }
}

/// What is left of so many bytes behind a text between quotation marks, as `json_tree::push_quoted` writes it; None
/// exactly where that has more. Takes no memory.
#[tactic(auto, using(crate::proofs::Lengths::quoted_longer))]
pub fn left_after_text(left: u64, text: &str) -> Option<u64>
    ensures { MatchOption result (left < length (quoted text.now)) (λ rest. rest + length (quoted text.now) ≡ left) }
{
    let bytes = text.as_bytes();
    let mut rest = spent(spent(left, 2)?, bytes.len() as u64)?;
    for byte in bytes {
        let more = more_bytes(*byte);
        if more > 0 {
            rest = spent(rest, more)?;
        }
    }
    Some(rest)
}
