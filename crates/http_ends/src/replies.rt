ghost use Rattle.std.specs.Prelude.{◌≡◌, ℕ, ◌<◌, ◌≤◌, [], ◌++◌, length, take, Some, OnOk, OnErr, IfOk, IsSome, unwrap_or, codes, decimal, ◌≢◌};
ghost use Rattle.std.specs.Io.KnownBytes.{Appends};
ghost use Rattle.std.specs.Option.{option_copied};
ghost use Rattle.dt_base.specs.Faults.{Rose};
ghost use Rattle.http_ends.specs.Lines.{fields_text};
ghost use Rattle.http_ends.specs.Replies.{phrase_of, IsAllowed, content_fields, allow_fields, close_fields, status_line, reply_head, reply_text};

use crate::lines::{push_content, push_field};
use crate::{Response, SendEnd};
use dt_base::{OutOfMemory, Sink, write_all};
use std::alloc::{AllocError, Global};

/// Room in bytes for the head of a reply.
const HEAD_ROOM: usize = 256;

/// The phrase of a status.
fn phrase(status: u16) -> &'static str
    requires { IsSome (phrase_of status) }
    ensures { Some result.now ≡ phrase_of status }
{
    match status {
        200 => "OK",
        201 => "Created",
        204 => "No Content",
        400 => "Bad Request",
        404 => "Not Found",
        405 => "Method Not Allowed",
        409 => "Conflict",
        413 => "Content Too Large",
        501 => "Not Implemented",
        503 => "Service Unavailable",
        507 => "Insufficient Storage",
        _ => unreachable!(),
    }
}

fn push_status_line(text: &mut Vec<u8>, status: u16) -> Result<(), AllocError>
    requires { IsSome (phrase_of status) }
    ensures { OnOk result (text.new.items ≡ text.old.items ++ status_line status (unwrap_or (phrase_of status) [])) }
{
    text.extend_from_slice(b"HTTP/1.1 ")?;
    text.extend_from_slice(itoa::Buffer::new().format(status).as_bytes())?;
    text.extend_from_slice(b" ")?;
    text.extend_from_slice(phrase(status).as_bytes())?;
    text.extend_from_slice(b"\r\n")
}

fn push_content_fields(text: &mut Vec<u8>, status: u16, size: usize) -> Result<(), AllocError>
    ensures { OnOk result (text.new.items ≡ text.old.items ++ fields_text (content_fields status size)) }
{
    if status == 204 {
        return Ok(());
    }
    push_content(text, size)
}

fn push_allow_fields(text: &mut Vec<u8>, allow: Option<&[u8]>) -> Result<(), AllocError>
    ensures { OnOk result (text.new.items ≡ text.old.items ++ fields_text (allow_fields (option_copied allow.entry))) }
{
    match allow {
        None => Ok(()),
        Some(methods) => push_field(text, b"Allow", methods),
    }
}

fn push_close_fields(text: &mut Vec<u8>, close: bool) -> Result<(), AllocError>
    ensures { OnOk result (text.new.items ≡ text.old.items ++ fields_text (close_fields close)) }
{
    if close {
        return push_field(text, b"Connection", b"close");
    }
    Ok(())
}

/// Puts the head of a reply at the end of a text.
fn push_head(text: &mut Vec<u8>, response: &Response, close: bool) -> Result<(), AllocError>
    requires { IsSome (phrase_of response.now.status) }
    ensures { OnOk result (text.new.items ≡ text.old.items ++ reply_head response.now close) }
{
    push_status_line(text, response.status)?;
    push_content_fields(text, response.status, response.body.len())?;
    push_allow_fields(
        text,
        response.allow.as_ref().map(|methods| methods.as_bytes()),
    )?;
    push_close_fields(text, close)?;
    text.extend_from_slice(b"\r\n")
}

/// The text of a reply.
fn text_of(
    alloc: Global,
    response: &Response,
    close: bool,
    head_only: bool,
) -> Result<Vec<u8>, OutOfMemory>
    requires { IsSome (phrase_of response.now.status) }
    ensures { IfOk result (λ text. text.items ≡ reply_text response.now close head_only) }
{
    let body = if head_only {
        &[]
    } else {
        response.body.as_slice()
    };
    let mut text = Vec::with_capacity(alloc, body.len().saturating_add(HEAD_ROOM))?;
    push_head(&mut text, response, close)?;
    text.extend_from_slice(body)?;
    Ok(text)
}

/// Writes a reply, its whole text in one write where the sink takes it.
///
/// The text is a status line, `Content-Length` and `Content-Type: application/json` but for the status 204, `Allow`
/// for the status 405, `Connection: close` where the reply is closing, and the body, which is left out where the head
/// alone was asked for.
pub fn write_response<K: Sink>(
    alloc: Global,
    link: &mut K,
    response: &Response,
    close: bool,
    head_only: bool,
) -> Result<(), SendEnd>
    requires status { IsSome (phrase_of response.now.status) }
    requires allow { IsAllowed response.now.status response.now.allow }
    requires empty { response.now.status ≡ 204 → response.now.body ≡ [] }
    ensures whole { let text = reply_text response.now close head_only in OnOk result (Appends (K.taken link.old) (K.taken link.new) text) }
    ensures part { let text = reply_text response.now close head_only in
        result ≡ Err SendEnd.WriteFault → (n : ℕ) × (n < length text) × Appends (K.taken link.old) (K.taken link.new) (take n text) }
    ensures nothing { result ≡ Err SendEnd.OutOfMemory → link.new ≡ link.old }
    ensures cause { result ≡ Err SendEnd.WriteFault → Rose (K.faults link.old) (K.faults link.new) }
    ensures count { K.faults link.old ≤ K.faults link.new }
    ensures beside { K.aside link.new ≡ K.aside link.old }
{
    let text = text_of(alloc, response, close, head_only)?;
    match write_all(link, text.as_slice()) {
        Ok(()) => Ok(()),
        Err(_) => Err(SendEnd::WriteFault),
    }
}
