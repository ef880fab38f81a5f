//! The words of an ask.

ghost use Rattle.std.specs.Prelude.{◌≡◌, Bool, ◌&&◌, nat_le, List, get_or, length, map, string_bytes, codes, IsTrue, ◌↔◌, ◌==◌, MatchOption};
ghost use Rattle.std.specs.List.{list_all, list_any};
ghost use Rattle.dtdl_cmd.specs.Clients as clients;
ghost use Rattle.dtdl_cmd.specs.Clients.{AreNoAsk, IsAsk, IsMethod};
ghost use Rattle.dtdl_cmd.specs.Machinery.ClientWords.{client_view};

use crate::command::number_up_to;

/// The most bytes of a host.
const MAX_HOST: usize = 255;

/// The most bytes of a target.
const MAX_TARGET: usize = 8192;

/// The highest port.
const MAX_PORT: u32 = 65_535;

/// The bytes of a target beside letters and digits.
const TARGET_MARKS: &[u8] = b"-._~:@!$&'()*+,;=/?%";

/// What is asked of which server, and whether the request has a body.
#[derive(Clone, Copy)]
pub struct AskWords<'a> {
    pub host: &'a str,
    pub port: u16,
    pub method: &'a str,
    pub has_body: bool,
    pub target: &'a str,
}

fn is_host_byte(byte: u8) -> bool
    ensures { result ≡ clients.is_host_byte byte }
{
    byte.is_ascii_alphanumeric() || byte == b'.' || byte == b'-'
}

fn are_host_bytes(bytes: &[u8]) -> bool
    ensures { result ≡ list_all clients.is_host_byte bytes.now }
{
    bytes.iter().all(|byte| is_host_byte(*byte))
}

fn is_host(word: &str) -> bool
    ensures { result ≡ clients.is_host word.now }
{
    let bytes = word.as_bytes();
    1 <= bytes.len() && bytes.len() <= MAX_HOST && are_host_bytes(bytes)
}

/// Whether requests of a method have a body, where the word is a method.
fn method_has_body(word: &str) -> Option<bool>
    ensures { MatchOption result ((b : Bool) → IsMethod word.now b → ⊥) (IsMethod word.now) }
{
    match word {
        "GET" | "DELETE" => Some(false),
        "PUT" | "POST" | "PATCH" => Some(true),
        _ => None,
    }
}

fn is_target_mark(byte: u8) -> bool
    ensures { result ≡ list_any (λ c. c == byte) (codes "-._~:@!$&'()*+,;=/?%") }
{
    TARGET_MARKS.contains(&byte)
}

fn is_target_byte(byte: u8) -> bool
    ensures { result ≡ clients.is_target_byte byte }
{
    byte.is_ascii_alphanumeric() || is_target_mark(byte)
}

fn are_target_bytes(bytes: &[u8]) -> bool
    ensures { result ≡ list_all clients.is_target_byte bytes.now }
{
    bytes.iter().all(|byte| is_target_byte(*byte))
}

fn begins_with_slash(bytes: &[u8]) -> bool
    ensures { result ≡ (get_or bytes.now 0 0 == 47) }
{
    !bytes.is_empty() && bytes[0] == b'/'
}

fn is_target(word: &str) -> bool
    ensures { result ≡ clients.is_target word.now }
{
    let bytes = word.as_bytes();
    begins_with_slash(bytes) && bytes.len() <= MAX_TARGET && are_target_bytes(bytes)
}

fn is_ask(word: &str) -> bool
    ensures { IsTrue result ↔ (word.now ≡ codes "ask") }
{
    word == "ask"
}

/// What the words ask of which server.
pub fn client_of(words: &[String]) -> Option<AskWords<'_>>
    ensures { MatchOption result (AreNoAsk words.now) (λ client. IsAsk words.now (client_view client)) }
{
    let [ask, host, port, method, target] = words else {
        return None;
    };
    let (host, method, target) = (host.as_str(), method.as_str(), target.as_str());
    if !is_ask(ask.as_str()) {
        return None;
    }
    if !is_host(host) {
        return None;
    }
    if !is_target(target) {
        return None;
    }
    let Some(has_body) = method_has_body(method) else {
        return None;
    };
    let Some(port) = number_up_to(MAX_PORT, port.as_str()) else {
        return None;
    };
    Some(AskWords {
        host,
        port: port as u16,
        method,
        has_body,
        target,
    })
}
