//! What a command answers: a status, and the line or text that is written with it.

ghost use Rattle.std.specs.Prelude.{◌≡◌, ◌≤◌, [], length, string_bytes, IfOk};
ghost use Rattle.dtdl_cmd.specs.Answers.{AnswersDocuments, Prints, uploaded_interfaces};
ghost use Rattle.dtdl_cmd.specs.Lines.{accepted_line, missing_line, too_long_line};
ghost use Rattle.dtdl_cmd.specs.declared.command.Command.{Command};
ghost use Rattle.dtdl_cmd.specs.declared.status.Status.{Status};

use crate::command::Command;
use crate::inputs::MAX_BYTES;
use crate::status::Status;
use documents::{Refusal, declared_by};
use dt_base::{List, OutOfMemory};
use dtdl_terms::{Interface, Uploaded};
use std::alloc::Global;
use std::mem::forget;

/// A status, and the line or text that is written with it.
#[derive(Debug, Drop)]
pub struct Answer {
    pub status: Status,
    pub line: List<u8>,
}

/// The answer with a line, which is moved.
fn answer_with(status: Status, line: String) -> Answer
    ensures { (result.status ≡ status) × (result.line ≡ string_bytes line) }
{
    Answer {
        status,
        line: List::from_vec(line.into_bytes()),
    }
}

/// A document is missing.
pub fn missing(alloc: Global, number: usize) -> Result<Answer, OutOfMemory>
    ensures { IfOk result (λ answer. (answer.status ≡ Status.Missing) × (answer.line ≡ missing_line number)) }
{
    Ok(answer_with(Status::Missing, format!(in alloc; "missing {number}\n")?))
}

/// With a document the sum of the bytes passes the limit.
pub fn too_long(alloc: Global, number: usize) -> Result<Answer, OutOfMemory>
    ensures { IfOk result (λ answer. (answer.status ≡ Status.TooLong) × (answer.line ≡ too_long_line number)) }
{
    Ok(answer_with(Status::TooLong, format!(in alloc; "too long {number}\n")?))
}

/// The interfaces without their places, in their order.
fn without_places(alloc: Global, uploads: Vec<Uploaded>) -> Result<Vec<Interface>, OutOfMemory>
    ensures { IfOk result (λ interfaces. interfaces.items ≡ uploaded_interfaces uploads.items) }
{
    let mut interfaces = Vec::with_capacity(alloc, uploads.len())?;
    let mut left = uploads;
    'left: while let Some(uploaded) = left.pop() {
        interfaces.push(uploaded.interface)?;
    }
    interfaces.reverse();
    Ok(interfaces)
}

/// `check`: how many interfaces there are. They are left to the system, as the program ends soon.
fn accepted(alloc: Global, uploads: Vec<Uploaded>) -> Result<Answer, OutOfMemory>
    ensures { IfOk result (λ answer. (answer.status ≡ Status.Ok) × (answer.line ≡ accepted_line (length uploads.items))) }
{
    let count = uploads.len();
    forget(uploads);
    Ok(answer_with(Status::Ok, format!(in alloc; "accepted {count}\n")?))
}

/// The bytes of a document, which is moved.
fn bytes_of(document: List<u8>) -> Vec<u8>
    ensures { result.items ≡ document }
{
    document.items
}

/// A text without bytes, in the memory of these.
fn emptied(alloc: Global, bytes: Vec<u8>) -> String
    ensures { string_bytes result ≡ [] }
{
    let mut bytes = bytes;
    bytes.clear();
    match String::from_utf8(bytes) {
        Ok(text) => text,
        Err(_) => String::new(alloc),
    }
}

/// A text without bytes, in the memory of the last document where there is one: what the system gave for a document need
/// not be asked for again.
fn room_of(alloc: Global, documents: List<List<u8>>) -> String
    ensures { string_bytes result ≡ [] }
{
    let mut documents = documents.items;
    match documents.pop() {
        Some(document) => emptied(alloc, bytes_of(document)),
        None => String::new(alloc),
    }
}

/// `canon`: the canonical text of the interfaces, within its limit. It is printed over the last document, whose bytes are
/// not needed once the interfaces are read.
fn canonical(
    alloc: Global,
    uploads: Vec<Uploaded>,
    documents: List<List<u8>>,
) -> Result<Answer, OutOfMemory>
    ensures { IfOk result (λ answer. Prints Command.Canon (uploaded_interfaces uploads.items) answer.status answer.line) }
{
    let interfaces = without_places(alloc, uploads)?;
    let mut text = room_of(alloc, documents);
    canon_print::push_set(alloc, &mut text, &interfaces)?;
    forget(interfaces);
    if text.len() > MAX_BYTES {
        return Ok(answer_with(
            Status::TooLong,
            String::from_str(alloc, "too long canon\n")?,
        ));
    }
    Ok(answer_with(Status::Ok, text))
}

/// The answer of a command to documents.
pub fn answer_to_documents(
    alloc: Global,
    command: Command,
    documents: List<List<u8>>,
) -> Result<Answer, OutOfMemory>
    requires few { length documents ≤ 4096 }
    ensures { IfOk result (λ answer. AnswersDocuments command documents answer.status answer.line) }
{
    let uploads = match declared_by(alloc, documents.as_slice()) {
        Ok(uploads) => uploads,
        Err(Refusal::Line(line)) => {
            return Ok(Answer {
                status: Status::Refused,
                line,
            });
        }
        Err(Refusal::OutOfMemory) => return Err(OutOfMemory),
    };
    match command {
        Command::Check => accepted(alloc, uploads),
        Command::Canon => canonical(alloc, uploads, documents),
    }
}
