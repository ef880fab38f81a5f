//! The texts that identify models and twins.

ghost use Rattle.std.specs.Prelude.{◌≡◌, ◌↔◌, IsTrue};
ghost use Rattle.twin_value.specs.Breaches.{IsModelId, IsTwinId, is_id_byte};

use dt_base::names::{has_dtmi_form, is_reserved_id};

/// The most bytes of the identifier of a model, and of that of a twin or a relationship.
const MOST_BYTES: usize = 128;

/// Whether a text is the identifier of an interface: a DTMI that is not reserved, of 128 bytes at most (the bound is this
/// project's own). Takes no memory.
pub fn is_model_id(text: &str) -> bool
    ensures { IsTrue result ↔ IsModelId text.now }
{
    if text.len() > MOST_BYTES {
        return false;
    }
    if is_reserved_id(text) {
        return false;
    }
    has_dtmi_form(text)
}

/// Whether a byte may stand in the identifier of a twin.
fn is_id_byte(byte: u8) -> bool
    ensures { result ≡ is_id_byte byte }
{
    byte.is_ascii_alphanumeric()
        || byte == b'-'
        || byte == b'.'
        || byte == b'_'
        || byte == b'~'
        || byte == b':'
        || byte == b'@'
}

/// Whether a text can identify a twin or a relationship: 1 to 128 letters, digits and `-._~:@` (this project's own).
/// Takes no memory.
pub fn is_twin_id(text: &str) -> bool
    ensures { IsTrue result ↔ IsTwinId text.now }
{
    let bytes = text.as_bytes();
    if bytes.is_empty() {
        return false;
    }
    if bytes.len() > MOST_BYTES {
        return false;
    }
    for byte in bytes {
        if !is_id_byte(*byte) {
            return false;
        }
    }
    true
}
