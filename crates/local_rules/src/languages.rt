//! Language codes, the keys of texts in several languages.

ghost use Rattle.std.specs.Prelude.{◌≡◌, ◌==◌, ◌<◌, ◌&&◌, ◌∷◌, [], length, nat_le, IfSome};
ghost use Rattle.std.specs.List.{list_all, slice_split};
ghost use Rattle.std.specs.Option.{option_map_or};
ghost use Rattle.std.specs.Char.{is_ascii_alphabetic, is_ascii_alphanumeric};
ghost use Rattle.local_rules.specs.Languages.{is_language, is_subtag};

/// Whether a text is a language code: 1 to 8 letters, and then subtags of 1 to 8 letters or digits, each behind a
/// `-`. The form is this project's own.
pub fn is_language(text: &str) -> bool
    ensures { result ≡ is_language text.now }
{
    let (first, mut rest) = first_subtag(text.as_bytes());
    if !is_primary_subtag(first) {
        return false;
    }
    'subtags: while let Some(bytes) = rest {
        let (subtag, more) = first_subtag(bytes);
        if !is_subtag(subtag) {
            return false;
        }
        rest = more;
    }
    true
}

/// Whether these are 1 to 8 letters.
fn is_primary_subtag(bytes: &[u8]) -> bool
    ensures { result ≡ is_subtag is_ascii_alphabetic bytes.now }
{
    has_subtag_length(bytes) && are_letters(bytes)
}

/// Whether these are 1 to 8 letters or digits.
fn is_subtag(bytes: &[u8]) -> bool
    ensures { result ≡ is_subtag is_ascii_alphanumeric bytes.now }
{
    has_subtag_length(bytes) && are_letters_or_digits(bytes)
}

fn has_subtag_length(bytes: &[u8]) -> bool
    ensures { result ≡ (nat_le 1 (length bytes.now) && nat_le (length bytes.now) 8) }
{
    1 <= bytes.len() && bytes.len() <= 8
}

fn are_letters(bytes: &[u8]) -> bool
    ensures { result ≡ list_all is_ascii_alphabetic bytes.now }
{
    bytes.iter().all(|byte| byte.is_ascii_alphabetic())
}

fn are_letters_or_digits(bytes: &[u8]) -> bool
    ensures { result ≡ list_all is_ascii_alphanumeric bytes.now }
{
    bytes.iter().all(|byte| byte.is_ascii_alphanumeric())
}

/// The bytes before the first `-`, and those behind it where there is one.
fn first_subtag(bytes: &[u8]) -> (&[u8], Option<&[u8]>)
    ensures split { slice_split (λ b. b == 45) bytes.now
        ≡ result.0.now ∷ option_map_or (λ rest. slice_split (λ b. b == 45) rest.now) result.1 [] }
    ensures shorter { IfSome result.1 (λ rest. length rest.now < length bytes.now) }
{
    for (at, byte) in bytes.iter().enumerate() {
        if *byte == b'-' {
            return (&bytes[..at], Some(&bytes[at + 1..]));
        }
    }
    (bytes, None)
}
