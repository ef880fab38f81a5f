ghost use Rattle.std.specs.Prelude.{◌≡◌, ◌++◌, length, codes, decimal, OnOk};
ghost use Rattle.http_ends.specs.Lines.{field_line};

use std::alloc::AllocError;

/// Puts a field line at the end of a text.
pub(crate) fn push_field(text: &mut Vec<u8>, name: &[u8], value: &[u8]) -> Result<(), AllocError>
    ensures { OnOk result (text.new.items ≡ text.old.items ++ field_line name.now value.now) }
{
    text.extend_from_slice(name)?;
    text.extend_from_slice(b": ")?;
    text.extend_from_slice(value)?;
    text.extend_from_slice(b"\r\n")
}

/// Puts the length of a body and its type at the end of a text.
pub(crate) fn push_content(text: &mut Vec<u8>, size: usize) -> Result<(), AllocError>
    ensures { OnOk result (text.new.items ≡ text.old.items ++ field_line (codes "Content-Length") (decimal size) ++ field_line (codes "Content-Type") (codes "application/json")) }
{
    push_field(
        text,
        b"Content-Length",
        itoa::Buffer::new().format(size).as_bytes(),
    )?;
    push_field(text, b"Content-Type", b"application/json")
}
