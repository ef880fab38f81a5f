ghost use Rattle.std.specs.Prelude.{◌≡◌, ℕ, ◌<◌, ◌≤◌, ◌++◌, length, take, OnOk, IfOk, codes};
ghost use Rattle.std.specs.Io.KnownBytes.{Appends};
ghost use Rattle.std.specs.Option.{option_copied};
ghost use Rattle.dt_base.specs.Faults.{Rose};
ghost use Rattle.http_ends.specs.Lines.{fields_text};
ghost use Rattle.http_ends.specs.Requests.{request_line, host_fields, body_fields, body_bytes, request_text};

use crate::SendEnd;
use crate::lines::{push_content, push_field};
use dt_base::{OutOfMemory, Sink, write_all};
use std::alloc::{AllocError, Global};

/// Room in bytes for the head of a request beside its method, target and host.
const HEAD_ROOM: usize = 160;

fn push_request_line(text: &mut Vec<u8>, method: &str, target: &str) -> Result<(), AllocError>
    ensures { OnOk result (text.new.items ≡ text.old.items ++ request_line method.now target.now) }
{
    text.extend_from_slice(method.as_bytes())?;
    text.extend_from_slice(b" ")?;
    text.extend_from_slice(target.as_bytes())?;
    text.extend_from_slice(b" HTTP/1.1\r\n")?;
    Ok(())
}

fn push_host_fields(text: &mut Vec<u8>, host: &str, port: u16) -> Result<(), AllocError>
    ensures { OnOk result (text.new.items ≡ text.old.items ++ fields_text (host_fields host.now port)) }
{
    text.extend_from_slice(b"Host: ")?;
    text.extend_from_slice(host.as_bytes())?;
    text.extend_from_slice(b":")?;
    text.extend_from_slice(itoa::Buffer::new().format(port).as_bytes())?;
    text.extend_from_slice(b"\r\n")?;
    push_field(text, b"Connection", b"close")
}

/// Puts the fields that tell of a body, the empty line and the body at the end of a text.
fn push_body(text: &mut Vec<u8>, body: Option<&[u8]>) -> Result<(), AllocError>
    ensures { let told = option_copied body.entry in OnOk result (text.new.items ≡ text.old.items ++ fields_text (body_fields told) ++ codes "\r\n" ++ body_bytes told) }
{
    let Some(body) = body else {
        return text.extend_from_slice(b"\r\n");
    };
    push_content(text, body.len())?;
    text.extend_from_slice(b"\r\n")?;
    text.extend_from_slice(body)
}

/// The text of a request.
fn text_of(
    alloc: Global,
    host: &str,
    port: u16,
    method: &str,
    target: &str,
    body: Option<&[u8]>,
) -> Result<Vec<u8>, OutOfMemory>
    ensures { IfOk result (λ text. text.items ≡ request_text host.now port method.now target.now (option_copied body.entry)) }
{
    let words = method
        .len()
        .saturating_add(target.len())
        .saturating_add(host.len());
    let room = words
        .saturating_add(HEAD_ROOM)
        .saturating_add(body.map_or(0, |body| body.len()));
    let mut text = Vec::with_capacity(alloc, room)?;
    push_request_line(&mut text, method, target)?;
    push_host_fields(&mut text, host, port)?;
    push_body(&mut text, body)?;
    Ok(text)
}

/// Writes a request, its whole text in one write where the sink takes it.
///
/// The text is the request line, `Host` with the port, `Connection: close`, where there is a body `Content-Length` and
/// `Content-Type: application/json`, and the body.
pub fn write_request<K: Sink>(
    alloc: Global,
    link: &mut K,
    host: &str,
    port: u16,
    method: &str,
    target: &str,
    body: Option<&[u8]>,
) -> Result<(), SendEnd>
    ensures whole { let text = request_text host.now port method.now target.now (option_copied body.entry) in OnOk result (Appends (K.taken link.old) (K.taken link.new) text) }
    ensures part { let text = request_text host.now port method.now target.now (option_copied body.entry) in
        result ≡ Err SendEnd.WriteFault → (n : ℕ) × (n < length text) × Appends (K.taken link.old) (K.taken link.new) (take n text) }
    ensures nothing { result ≡ Err SendEnd.OutOfMemory → link.new ≡ link.old }
    ensures cause { result ≡ Err SendEnd.WriteFault → Rose (K.faults link.old) (K.faults link.new) }
    ensures count { K.faults link.old ≤ K.faults link.new }
    ensures beside { K.aside link.new ≡ K.aside link.old }
{
    let text = text_of(alloc, host, port, method, target, body)?;
    match write_all(link, text.as_slice()) {
        Ok(()) => Ok(()),
        Err(_) => Err(SendEnd::WriteFault),
    }
}
