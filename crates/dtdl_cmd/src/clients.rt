//! The command that asks a server, over the traits of the outside.

ghost use Rattle.std.specs.Prelude.{◌≡◌, ◌≤◌, true, false, Err, IfSome, IfOk, OnErr, ◌<◌, length};
ghost use Rattle.std.specs.Option.{option_copied};
ghost use Rattle.dt_base.specs.Faults.{Rose};
ghost use Rattle.http_client.specs.Ends.{dial_record};
ghost use Rattle.dtdl_cmd.specs.Clients.{AreNoAsk, Client, IsAsk};
ghost use Rattle.dtdl_cmd.specs.ClientRuns.{AskRunEnds, Asks, IsBody, IsReplyStatus, MAX_BODY, Tells, dial_change, request_of, stream_change};
ghost use Rattle.dtdl_cmd.specs.Machinery.ClientWords.{client_view};
ghost use Rattle.dt_base.specs.declared.reads.ReadEnd.TheVariants.{ReadFault, TooLong};

use crate::client::{AskWords, client_of};
use crate::run::{USAGE, say};
use crate::status::Status;
use connections::Dial;
use dt_base::{List, ReadEnd, Sink, Source, read_all};
use http_client::{AskEnd, ask_over};
use http_ends::Response;
use std::alloc::Global;

/// The most bytes that the body of a request may have.
const MAX_BODY: usize = 4_194_304;

/// The line that is printed for a body that is too long.
const TOO_LONG: &[u8] = b"too long 1\n";

/// The body of a request, which is the input where there is one.
fn body_of<S: Source>(
    alloc: Global,
    has_body: bool,
    input: &mut S,
) -> Result<Option<List<u8>>, ReadEnd>
    ensures given { IfOk result (IsBody has_body (stream_change S.left S.faults input.old input.new)) }
    ensures asked { OnErr result (has_body ≡ true) }
    ensures long { result ≡ Err TooLong → IfSome (S.left input.old) (λ bytes. MAX_BODY < length bytes) }
    ensures cause { result ≡ Err ReadFault → Rose (S.faults input.old) (S.faults input.new) }
    ensures count { S.faults input.old ≤ S.faults input.new }
    ensures beside { S.aside input.new ≡ S.aside input.old }
    ensures unread { has_body ≡ false → input.new ≡ input.old }
{
    if !has_body {
        return Ok(None);
    }
    match read_all(alloc, input, MAX_BODY) {
        Ok(bytes) => Ok(Some(bytes)),
        Err(end) => Err(end),
    }
}

/// The status that the number of a reply says.
fn reply_status(number: u16) -> Status
    ensures { IsReplyStatus number result }
{
    if 200 <= number && number <= 299 {
        Status::Ok
    } else {
        Status::Refused
    }
}

/// Writes the body of the reply, where there is one.
fn tell<K: Sink>(answer: &Result<Response, AskEnd>, output: &mut K) -> Status
    ensures tells { Tells answer.now (stream_change K.taken K.faults output.old output.new) result }
    ensures count { K.faults output.old ≤ K.faults output.new }
    ensures beside { K.aside output.new ≡ K.aside output.old }
{
    match answer {
        Ok(response) => {
            let status = reply_status(response.status);
            say(output, status, response.body.as_slice())
        }
        Err(AskEnd::DialFault) => Status::DialFault,
        Err(AskEnd::ReadFault) => Status::ReadFault,
        Err(AskEnd::WriteFault) => Status::WriteFault,
        Err(AskEnd::BadReply) => Status::BadReply,
        Err(AskEnd::OutOfMemory) => Status::OutOfMemory,
    }
}

/// Asks the server, and tells its answer.
fn ask_server<K: Sink, D: Dial>(
    alloc: Global,
    client: AskWords<'_>,
    body: Option<&[u8]>,
    output: &mut K,
    dial: &mut D,
) -> Status
    ensures asks { let told = option_copied body.entry in
        Asks (request_of (client_view client.entry) told)
        (dial_change (dial_record D.ahead D.gone D.lost) D.faults dial.old dial.new)
        (stream_change K.taken K.faults output.old output.new) result }
    ensures output_count { K.faults output.old ≤ K.faults output.new }
    ensures output_beside { K.aside output.new ≡ K.aside output.old }
    ensures dial_count { D.faults dial.old ≤ D.faults dial.new }
    ensures dial_lost { D.lost dial.old ≤ D.lost dial.new }
{
    let answer = ask_over(
        alloc,
        dial,
        client.host,
        client.port,
        client.method,
        client.target,
        body,
    );
    tell(&answer, output)
}

/// Does `ask`: asks a server at a port of a host one request over a link of its own, and prints the body of its reply. The
/// body of a `PUT`, a `POST` or a `PATCH` is the input, read whole before anything is dialled, at most 4,194,304 bytes; for
/// other methods no input is read. The link is handed back to the dial, whatever the answer.
///
/// The status is `Ok` where the reply's is 200 to 299 and `Refused` where it is another. `Usage`, where the words are no ask,
/// and `TooLong` print their line, and dial nothing. `ReadFault`, `DialFault`, `BadReply` and `OutOfMemory` print nothing.
/// `WriteFault` prints nothing where the link was lost, and otherwise a proper prefix.
pub fn run_ask<S: Source, K: Sink, D: Dial>(
    alloc: Global,
    words: &[String],
    input: &mut S,
    output: &mut K,
    dial: &mut D,
) -> Status
    ensures ends { AskRunEnds words.now
        (stream_change S.left S.faults input.old input.new)
        (dial_change (dial_record D.ahead D.gone D.lost) D.faults dial.old dial.new)
        (stream_change K.taken K.faults output.old output.new) result }
    // Each count of faults never falls, and what stands beside the input and the output stays as it was.
    ensures input_count { S.faults input.old ≤ S.faults input.new }
    ensures input_beside { S.aside input.new ≡ S.aside input.old }
    ensures output_count { K.faults output.old ≤ K.faults output.new }
    ensures output_beside { K.aside output.new ≡ K.aside output.old }
    ensures dial_count { D.faults dial.old ≤ D.faults dial.new }
    ensures dial_lost { D.lost dial.old ≤ D.lost dial.new }
    // What is not used is as it was: the input where the request has no body, the dial where the words are no ask.
    ensures unread { ((client : Client) → IsAsk words.now client → client.has_body ≡ true → ⊥) → input.new ≡ input.old }
    ensures undialled { AreNoAsk words.now → dial.new ≡ dial.old }
{
    let Some(client) = client_of(words) else {
        return say(output, Status::Usage, USAGE);
    };
    let body = match body_of(alloc, client.has_body, input) {
        Ok(body) => body,
        Err(ReadEnd::ReadFault) => return Status::ReadFault,
        Err(ReadEnd::TooLong) => return say(output, Status::TooLong, TOO_LONG),
        Err(ReadEnd::OutOfMemory) => return Status::OutOfMemory,
    };
    let told = match &body {
        Some(bytes) => Some(bytes.as_slice()),
        None => None,
    };
    ask_server(alloc, client, told, output, dial)
}
