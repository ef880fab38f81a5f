//! Documents that break no local rule are read: every kind of element, and every shape that a member may have.

mod golden;

use dt_base::List;
use dtdl_terms::Uploaded;
use model_read::*;
use std::alloc::Global;
use std::test::Fail;

/// A document, and of its last interface: how many contents, schemas and parents it has, and its pointer.
const DOCUMENTS: [(&str, usize, usize, usize, &str); 7] = [
    (
        r#"{"@context":"dtmi:dtdl:context;2","@id":"dtmi:a;1","@type":"Interface"}"#,
        0,
        0,
        0,
        "",
    ),
    (
        r#"[{"@context":["dtmi:dtdl:context;2"],"@id":"dtmi:a;1","@type":["Interface"],"contents":[],"schemas":[],"extends":[]},{"extends":["dtmi:b;1","dtmi:c;1"],"@type":"Interface","@id":"dtmi:a;2","@context":"dtmi:dtdl:context;2"}]"#,
        0,
        0,
        2,
        "/1",
    ),
    (
        r#"{"@context":"dtmi:dtdl:context;2","@id":"dtmi:a;1","@type":"Interface","extends":"dtmi:b;1","comment":"","displayName":"x","description":{"en":"x","de-CH":"y"},"contents":[{"@type":["Telemetry","Temperature"],"name":"t","schema":"double","unit":"degreeCelsius"},{"@type":["Property"],"name":"p","schema":"dtmi:s;1","writable":true,"comment":"c"},{"@type":"Component","name":"c","schema":"dtmi:d;1"}],"schemas":[{"@id":"dtmi:s;1","@type":"Enum","valueSchema":"integer","enumValues":[{"name":"a","enumValue":-1},{"name":"b","@type":"x","enumValue":1e3}]}]}"#,
        3,
        1,
        1,
        "",
    ),
    (
        r#"{"@context":"dtmi:dtdl:context;2","@id":"dtmi:a;1","@type":"Interface","contents":[{"@type":"Command","name":"c","commandType":"synchronous","request":{"name":"r","schema":"duration"},"response":{"name":"s","schema":{"@type":"Object","fields":[{"name":"f","schema":"boolean"},{"name":"g","@type":"Y","schema":{"@type":"Array","elementSchema":"long"}}]}}},{"@type":"Command","name":"d"}]}"#,
        2,
        0,
        0,
        "",
    ),
    (
        r#"{"@context":"dtmi:dtdl:context;2","@id":"dtmi:a;1","@type":"Interface","contents":[{"@type":"Relationship","name":"r"},{"@type":"Relationship","name":"s","minMultiplicity":0,"maxMultiplicity":2147483647,"target":"dtmi:b;1","writable":false,"properties":[{"@type":["Property","Telemetry"],"name":"p","schema":"date"}]}]}"#,
        2,
        0,
        0,
        "",
    ),
    (
        r#"{"@context":"dtmi:dtdl:context;2","@id":"dtmi:a;1","@type":"Interface","schemas":[{"@id":"dtmi:s;1","@type":"Map","mapKey":{"name":"k","schema":"string"},"mapValue":{"name":"v","displayName":"v","schema":"dtmi:s;2"}},{"@id":"dtmi:s;2","@type":["Enum"],"valueSchema":"string","enumValues":[{"name":"a","enumValue":"a"}]},{"@id":"dtmi:s;3","@type":"Object","fields":[]}]}"#,
        0,
        3,
        0,
        "",
    ),
    (
        r#"[{"@context":"dtmi:dtdl:context;2","@id":"dtmi:a;1","@type":"Interface","contents":[{"@type":["Property","Array"],"name":"p","schema":{"@type":"Object","@id":"dtmi:o;1","comment":"c","fields":[{"name":"f","schema":{"@type":"Map","mapKey":{"name":"k","schema":"string"},"mapValue":{"name":"v","schema":"time"}}}]}}]}]"#,
        1,
        0,
        0,
        "/0",
    ),
];

/// What is read of a document's last interface: how many contents, schemas and parents it has, and its pointer.
#[derive(Drop)]
struct Last {
    counts: [usize; 3],
    base: String,
}

fn last_of(alloc: Global, uploads: &[Uploaded]) -> Result<Last, Fail> {
    let Some(last) = uploads.last() else {
        return Err(Fail::from("no interface"));
    };
    let interface = &last.interface;
    Ok(Last {
        counts: [
            interface.contents.len(),
            interface.schemas.len(),
            interface.parents.len(),
        ],
        base: String::from_str(alloc, last.base.as_str())?,
    })
}

/// The interfaces of a document with this number.
fn uploads_of(alloc: Global, text: &str, document: u32) -> Result<List<Uploaded>, Fail> {
    let tree = json_read::read(alloc, text.as_bytes())?;
    let uploads = read_interfaces(alloc, &tree, document);
    drop(tree);
    Ok(uploads?)
}

fn read_last(alloc: Global, text: &str) -> Result<Last, Fail> {
    let uploads = uploads_of(alloc, text, 1)?;
    let last = last_of(alloc, uploads.as_slice());
    drop(uploads);
    last
}

#[test]
fn reads_every_kind_of_element(rt: HostRuntime) -> Result<(), Fail> {
    for (text, contents, schemas, parents, base) in DOCUMENTS {
        let last = read_last(rt.alloc(), text)?;
        assert_eq!(rt; last.counts, [contents, schemas, parents], "{text}");
        assert_eq!(rt; last.base.as_str(), base);
    }
    Ok(())
}

/// What is shown behind the start of a text that lies in place: its length, and the bytes of its room.
fn push_in_place(out: &mut String, shown: &str) -> Result<(), Fail> {
    let Some((length, rest)) = shown.split_once(", bytes: [") else {
        return Err(Fail::from("no bytes are shown"));
    };
    let Some((bytes, behind)) = rest.split_once("] })") else {
        return Err(Fail::from("the bytes do not end"));
    };
    let length = length.parse::<usize>()?;
    out.push_str("Apart(\"")?;
    for byte in bytes.split(", ").take(length) {
        out.push(byte.parse::<u8>()? as char)?;
    }
    out.push_str("\")")?;
    out.push_str(behind)?;
    Ok(())
}

/// What is shown of a record, with each text as one that lies apart, so that no more than its characters is compared. The
/// texts of the documents here are ASCII.
fn readable(alloc: Global, shown: &str) -> Result<String, Fail> {
    let mut out = String::new(alloc);
    for (at, piece) in shown.split("InPlace(Short { len: ").enumerate() {
        if at == 0 {
            out.push_str(piece)?;
        } else {
            push_in_place(&mut out, piece)?;
        }
    }
    Ok(out)
}

/// What is shown of a record.
fn shown(alloc: Global, uploaded: &Uploaded) -> Result<String, Fail> {
    let text = format!(in alloc; "{uploaded:?}")?;
    readable(alloc, text.as_str())
}

/// What is shown of a copy of a record.
fn shown_copy(alloc: Global, uploaded: &Uploaded) -> Result<String, Fail> {
    let copy = uploaded.copy(alloc)?;
    let text = shown(alloc, &copy);
    drop(copy);
    text
}

/// Whether the same is shown of each record and of its copy.
fn are_copied(alloc: Global, uploads: &[Uploaded]) -> Result<bool, Fail> {
    for uploaded in uploads {
        let record = shown(alloc, uploaded)?;
        let copy = shown_copy(alloc, uploaded)?;
        if copy.as_str() != record.as_str() {
            return Ok(false);
        }
    }
    Ok(true)
}

/// The same of the records of a document.
fn is_copied(alloc: Global, text: &str) -> Result<bool, Fail> {
    let uploads = uploads_of(alloc, text, 1)?;
    let all = are_copied(alloc, uploads.as_slice());
    drop(uploads);
    all
}

#[test]
fn copies_every_kind_of_element(rt: HostRuntime) -> Result<(), Fail> {
    for (text, ..) in DOCUMENTS {
        assert!(rt; is_copied(rt.alloc(), text)?, "{text}");
    }
    Ok(())
}

/// Documents, and of each the place and the code of its first breach.
const BREACHES: [(&str, &[u64], &str); 4] = [
    (r#"[{"@id":"dtmi:a;1"}]"#, &[0], "MissingKey"),
    (
        r#"{"@context":"dtmi:dtdl:context;2","@id":"dtmi:a;1","@type":"Interface","extends":["x",5]}"#,
        &[3, 0],
        "BadId",
    ),
    (
        r#"{"@context":"dtmi:dtdl:context;2","@id":"dtmi:a;1","@type":"Interface","schemas":[{"@id":"dtmi:s;1","@type":"Array","elementSchema":"dtmi:s;1"}]}"#,
        &[3, 0],
        "TooDeep",
    ),
    (
        r#"{"@context":"dtmi:dtdl:context;2","@id":"dtmi:a;1","@type":"Interface","contents":[{"@type":"Command","name":"a"},{"@type":"Command","name":"b"},{"@type":"Command","name":"c"},{"@type":"Command","name":"d"},{"@type":"Command","name":"e"},{"@type":"Command","name":"f"},{"@type":"Command","name":"g"},{"@type":"Command","name":"h"},{"@type":"Command","name":"a"}]}"#,
        &[3, 8, 1],
        "DuplicateName",
    ),
];

/// The code of the first breach of a document, where it stands at this place.
fn breach_at(alloc: Global, text: &str, place: &[u64]) -> Result<&'static str, Fail> {
    let tree = json_read::read(alloc, text.as_bytes())?;
    let found = local_faults::first_breach(alloc, &tree);
    drop(tree);
    let Some(breach) = found? else {
        return Ok("no breach");
    };
    let code = breach.rule.text();
    let is_there = breach.place.steps.as_slice() == place;
    drop(breach);
    Ok(if is_there { code } else { "elsewhere" })
}

/// Whether a document is not read, by the name of its first breach.
fn is_refused(alloc: Global, text: &str) -> Result<bool, Fail> {
    let tree = json_read::read(alloc, text.as_bytes())?;
    let end = read_interfaces(alloc, &tree, 1);
    drop(tree);
    let is_fault = matches!(&end, Err(LocalEnd::Fault { .. }));
    drop(end);
    Ok(is_fault)
}

#[test]
fn finds_the_first_breach(rt: HostRuntime) -> Result<(), Fail> {
    for (text, place, code) in BREACHES {
        assert_eq!(rt; breach_at(rt.alloc(), text, place)?, code, "{text}");
        assert!(rt; is_refused(rt.alloc(), text)?, "{text}");
    }
    Ok(())
}
