ghost use Rattle.std.specs.Prelude.{◌≡◌, ◌≤◌, Err};
ghost use Rattle.std.specs.Option.{option_copied};
ghost use Rattle.dt_base.specs.Faults.{Rose};
ghost use Rattle.http_ends.specs.Requests.{request_text};
ghost use Rattle.http_client.specs.Ends.{Ends, dial_record};
ghost use Rattle.http_client.specs.Exchanges.{Exchanged, link_record};
ghost use Rattle.http_client.specs.declared.ends.AskEnd.TheVariants.{DialFault, ReadFault, WriteFault};

use crate::AskEnd;
use connections::{Dial, DialEnd};
use dt_base::Link;
use http_ends::{Buffer, ReplyEnd, Response, SendEnd, next_response, write_request};
use std::alloc::Global;

/// Writes a request to a link and reads the reply to it. The room for the reply is taken first, so that nothing is
/// asked where there is none.
fn exchange<L: Link>(
    alloc: Global,
    link: &mut L,
    host: &str,
    port: u16,
    method: &str,
    target: &str,
    body: Option<&[u8]>,
) -> Result<Response, AskEnd>
    ensures { let told = option_copied body.entry in
        let request = request_text host.now port method.now target.now told in
        let record_of = link_record L.Source.left L.Sink.taken L.Source.faults in
        Exchanged request (record_of link.old) (record_of link.new) result }
{
    let mut buffer = Buffer::new(alloc)?;
    match write_request(alloc, link, host, port, method, target, body) {
        Ok(()) => {}
        Err(SendEnd::WriteFault) => return Err(AskEnd::WriteFault),
        Err(SendEnd::OutOfMemory) => return Err(AskEnd::OutOfMemory),
    }
    match next_response(alloc, link, &mut buffer) {
        Ok(response) => Ok(response),
        Err(ReplyEnd::BadReply) => Err(AskEnd::BadReply),
        Err(ReplyEnd::ReadFault) => Err(AskEnd::ReadFault),
        Err(ReplyEnd::OutOfMemory) => Err(AskEnd::OutOfMemory),
    }
}

/// Asks a server at a port of a host one request, over a link of its own, and answers with the one reply.
///
/// The request is the text that `write_request` defines: the request line, `Host` with the port, `Connection: close`,
/// and the body with its length, where there is one (RFC 9112, sections 3 and 9.6). The reply is the one that the bytes of
/// the link begin with (RFC 9112, section 4). Nothing else is written, and no second reply is read.
///
/// - `DialFault`: the dial failed, and its count of faults rose.
/// - `WriteFault`: a proper prefix of the request was written. The link had a fault, and so counts as lost.
/// - `ReadFault`: the request was written whole, and a read failed. The link had a fault, and so counts as lost.
/// - `BadReply`: the request was written whole, and the link's bytes begin with no reply within the limits.
/// - `OutOfMemory`: there was no memory for the link, the request or the reply.
///
/// A link that was given is handed back to the dial after each of these answers.
pub fn ask_over<D: Dial>(
    alloc: Global,
    dial: &mut D,
    host: &str,
    port: u16,
    method: &str,
    target: &str,
    body: Option<&[u8]>,
) -> Result<Response, AskEnd>
    ensures ends { let told = option_copied body.entry in
        let request = request_text host.now port method.now target.now told in
        let record_of = dial_record D.ahead D.gone D.lost in
        Ends request (record_of dial.old) (record_of dial.new) result }
    ensures dial_cause { result ≡ Err DialFault → Rose (D.faults dial.old) (D.faults dial.new) }
    ensures read_cause { result ≡ Err ReadFault → Rose (D.lost dial.old) (D.lost dial.new) }
    ensures write_cause { result ≡ Err WriteFault → Rose (D.lost dial.old) (D.lost dial.new) }
    ensures count { D.faults dial.old ≤ D.faults dial.new }
    ensures lost { D.lost dial.old ≤ D.lost dial.new }
{
    let mut link = match dial.dial(host, port) {
        Ok(link) => link,
        Err(DialEnd::Failed) => return Err(AskEnd::DialFault),
        Err(DialEnd::OutOfMemory) => return Err(AskEnd::OutOfMemory),
    };
    let answer = exchange(alloc, &mut link, host, port, method, target, body);
    dial.done(link);
    answer
}
