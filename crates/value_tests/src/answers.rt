//! Copies of replies and of refusals, through the public calls of `graph_asks`. Each original is let go before its copy is
//! looked at.

use crate::made::{both, tree_of, tree_text};
use dt_base::{List, OutOfMemory, Text};
use dtdl_terms::Limit;
use graph_asks::{At, Refusal, Reply};
use std::alloc::Global;
use std::test::Fail;

fn json_fault(alloc: Global) -> Result<Refusal, OutOfMemory> {
    let fault = Text::from_str(alloc, "Byte")?;
    let at = At::Number(7);
    Ok(Refusal::JsonFault { at, fault })
}

fn body_fault(alloc: Global) -> Result<Refusal, OutOfMemory> {
    let (pointer, fault) = both(
        Text::from_str(alloc, "/$metadata/$model"),
        Text::from_str(alloc, "MissingKey"),
    )?;
    let at = At::Pointer(pointer);
    Ok(Refusal::BodyFault { at, fault })
}

fn query_fault(alloc: Global) -> Result<Refusal, OutOfMemory> {
    let fault = Text::from_str(alloc, "TooManyJoins")?;
    Ok(Refusal::QueryFault { fault, at: None })
}

fn does_not_fit(alloc: Global) -> Result<Refusal, OutOfMemory> {
    let (id, source) = both(Text::from_str(alloc, "m"), Text::from_str(alloc, "a"))?;
    Ok(Refusal::DoesNotFit { id, source })
}

/// The refusal of a row.
fn refusal_of(alloc: Global, row: usize) -> Result<Refusal, OutOfMemory> {
    match row {
        0 => Ok(Refusal::BodyTooLong { limit: 4_194_304 }),
        1 => json_fault(alloc),
        2 => body_fault(alloc),
        3 => query_fault(alloc),
        4 => does_not_fit(alloc),
        5 => Ok(Refusal::Multiplicity { max: 3 }),
        _ => Ok(Refusal::Full {
            limit: Limit::TwinBytes,
        }),
    }
}

/// What a place says.
fn at_said(alloc: Global, at: &At) -> Result<String, Fail> {
    match at {
        At::Number(byte) => Ok(format!(in alloc; "{byte}")?),
        At::Pointer(pointer) => Ok(String::from_str(alloc, pointer.as_str())?),
    }
}

/// What a code, a fault and its place say.
fn fault_said(alloc: Global, code: &str, fault: &Text, at: &At) -> Result<String, Fail> {
    let at = at_said(alloc, at)?;
    Ok(format!(in alloc; "{code} {} {}", fault.as_str(), at.as_str())?)
}

/// What a refusal says.
fn refusal_said(alloc: Global, refusal: &Refusal) -> Result<String, Fail> {
    match refusal {
        Refusal::BodyTooLong { limit } => Ok(format!(in alloc; "BodyTooLong {limit}")?),
        Refusal::JsonFault { at, fault } => fault_said(alloc, "JsonFault", fault, at),
        Refusal::BodyFault { at, fault } => fault_said(alloc, "BodyFault", fault, at),
        Refusal::QueryFault { fault, at: None } => {
            Ok(format!(in alloc; "QueryFault {}", fault.as_str())?)
        }
        Refusal::DoesNotFit { id, source } => {
            Ok(format!(in alloc; "DoesNotFit {} {}", id.as_str(), source.as_str())?)
        }
        Refusal::Multiplicity { max } => Ok(format!(in alloc; "Multiplicity {max}")?),
        Refusal::Full { limit } => Ok(format!(in alloc; "Full {}", limit.text())?),
        _ => Ok(String::new(alloc)),
    }
}

/// The copy of the refusal of a row.
fn refusal_copy(alloc: Global, row: usize) -> Result<Refusal, OutOfMemory> {
    let refusal = refusal_of(alloc, row)?;
    let copy = refusal.copy(alloc);
    drop(refusal);
    copy
}

/// What the copy of the refusal of a row says.
fn refusal_copy_said(alloc: Global, row: usize) -> Result<String, Fail> {
    let copy = refusal_copy(alloc, row)?;
    let said = refusal_said(alloc, &copy);
    drop(copy);
    said
}

/// What the refusals say, in the order of their rows.
const REFUSALS: [&str; 7] = [
    "BodyTooLong 4194304",
    "JsonFault Byte 7",
    "BodyFault MissingKey /$metadata/$model",
    "QueryFault TooManyJoins",
    "DoesNotFit m a",
    "Multiplicity 3",
    "Full twinBytes",
];

#[test]
fn copies_refusals(rt: HostRuntime) -> Result<(), Fail> {
    for (row, want) in REFUSALS.iter().enumerate() {
        assert_eq!(rt; refusal_copy_said(rt.alloc(), row)?.as_str(), *want);
    }
    Ok(())
}

/// The reply of a row.
fn reply_of(alloc: Global, row: usize) -> Result<Reply, OutOfMemory> {
    match row {
        0 => Ok(Reply::Body(tree_of(alloc, r#"{"$dtId":"t1"}"#)?)),
        1 => Ok(Reply::Created(tree_of(alloc, "[1.50,null]")?)),
        2 => Ok(Reply::Canon(List::from_vec(Vec::from_slice(alloc, b"[]\n")?))),
        3 => Ok(Reply::Refused(does_not_fit(alloc)?)),
        _ => Ok(Reply::Done),
    }
}

/// What a word and a text say.
fn word_said(alloc: Global, word: &str, text: Result<String, Fail>) -> Result<String, Fail> {
    let text = text?;
    Ok(format!(in alloc; "{word} {}", text.as_str())?)
}

/// The bytes of a text, as numbers.
fn bytes_said(alloc: Global, bytes: &[u8]) -> Result<String, Fail> {
    let mut said = String::from_str(alloc, "Canon")?;
    for byte in bytes {
        write!(&mut said, " {byte}")?;
    }
    Ok(said)
}

/// What a reply says.
fn reply_said(alloc: Global, reply: &Reply) -> Result<String, Fail> {
    match reply {
        Reply::Body(tree) => Ok(format!(in alloc; "Body {}", tree_text(alloc, tree)?.as_str())?),
        Reply::Created(tree) => {
            Ok(format!(in alloc; "Created {}", tree_text(alloc, tree)?.as_str())?)
        }
        Reply::Canon(bytes) => bytes_said(alloc, bytes.as_slice()),
        Reply::Done => Ok(String::from_str(alloc, "Done")?),
        Reply::Refused(refusal) => word_said(alloc, "Refused", refusal_said(alloc, refusal)),
    }
}

/// The copy of the reply of a row.
fn reply_copy(alloc: Global, row: usize) -> Result<Reply, OutOfMemory> {
    let reply = reply_of(alloc, row)?;
    let copy = reply.copy(alloc);
    drop(reply);
    copy
}

/// What the copy of the reply of a row says.
fn reply_copy_said(alloc: Global, row: usize) -> Result<String, Fail> {
    let copy = reply_copy(alloc, row)?;
    let said = reply_said(alloc, &copy);
    drop(copy);
    said
}

/// What the replies say, in the order of their rows.
const REPLIES: [&str; 5] = [
    r#"Body {"$dtId":"t1"}"#,
    "Created [1.5,null]",
    "Canon 91 93 10",
    "Refused DoesNotFit m a",
    "Done",
];

#[test]
fn copies_replies(rt: HostRuntime) -> Result<(), Fail> {
    for (row, want) in REPLIES.iter().enumerate() {
        assert_eq!(rt; reply_copy_said(rt.alloc(), row)?.as_str(), *want);
    }
    Ok(())
}
