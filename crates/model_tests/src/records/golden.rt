//! Every field of a read record, printed once, with neighbours that differ.

use super::{shown, uploads_of};
use std::alloc::Global;
use std::test::Fail;

/// A document whose second interface has each kind of content and of schema, and each field.
const DOCUMENT: &str =
    r#"[{"@context":"dtmi:dtdl:context;2","@id":"dtmi:o;1","@type":"Interface"},{"contents":[{"@type":["Telemetry","Ta"],"name":"t","@id":"dtmi:t;1","comment":"tc","description":"td","displayName":"tn","schema":"double","unit":"tu"},{"@type":["Property","Pa"],"name":"p","schema":"dtmi:e;1","unit":"pu","writable":true},{"@type":"Command","name":"c","request":{"name":"rq","schema":"date"},"response":{"name":"rs","schema":"time"}},{"@type":"Relationship","name":"r","target":"dtmi:g;3","maxMultiplicity":7,"writable":true,"properties":[{"@type":["Property","Qa"],"name":"q","schema":"float","unit":"qu"}]},{"@type":"Component","name":"k","schema":"dtmi:h;4"}],"@type":"Interface","extends":"dtmi:p;2","@context":"dtmi:dtdl:context;2","displayName":{"en":"in","de":"iv"},"@id":"dtmi:a;1","comment":"ic","description":"id","schemas":[{"@id":"dtmi:e;1","@type":"Enum","valueSchema":"string","enumValues":[{"name":"x","enumValue":"y"}]},{"@id":"dtmi:m;1","@type":"Map","mapKey":{"name":"mk","schema":"string"},"mapValue":{"name":"mv","schema":{"@type":"Array","elementSchema":"long"}}},{"@id":"dtmi:f;1","@type":"Object","fields":[{"name":"f","schema":"boolean"}]},{"@id":"dtmi:n;1","@type":"Enum","valueSchema":"integer","enumValues":[{"name":"z","enumValue":-3}]}]}]"#;

/// What an element has that has nothing of what every element may have.
const BARE: &str =
    "Common { id: None, comment: None, description: Localized { entries: List { items: [] } }, display_name: Localized { entries: List { items: [] } } }";

/// The same where it has an `@id`, up to that and from that on.
const COMMON: &str = "Common { id: Some(Dtmi { text: ";

const NO_TEXTS: &str =
    " }), comment: None, description: Localized { entries: List { items: [] } }, display_name: Localized { entries: List { items: [] } } }";

/// The second interface of the document.
const RECORD: [&str; 58] = [
    r#"Uploaded { interface: Interface { id: Dtmi { text: "dtmi:a;1", path_end: 6, version: 1 }"#,
    r#", comment: Some(Text { held: Apart("ic") })"#,
    r#", description: Localized { entries: List { items: [Entry { language: Text { held: Apart("en") }, text: Text { held: Apart("id") } }] } }"#,
    r#", display_name: Localized { entries: List { items: [Entry { language: Text { held: Apart("en") }, text: Text { held: Apart("in") } }"#,
    r#", Entry { language: Text { held: Apart("de") }, text: Text { held: Apart("iv") } }] } }"#,
    r#", parents: List { items: [Dtmi { text: "dtmi:p;2", path_end: 6, version: 2 }] }, contents: List { items: ["#,
    r#"Content { name: Name { text: Text { held: Apart("t") } }, common: Common { id: Some(Dtmi { text: "dtmi:t;1", path_end: 6, version: 1 })"#,
    r#", comment: Some(Text { held: Apart("tc") })"#,
    r#", description: Localized { entries: List { items: [Entry { language: Text { held: Apart("en") }, text: Text { held: Apart("td") } }] } }"#,
    r#", display_name: Localized { entries: List { items: [Entry { language: Text { held: Apart("en") }, text: Text { held: Apart("tn") } }] } } }"#,
    r#", kind: Telemetry { schema: Primitive(Double), semantic: Some(Name { text: Text { held: Apart("Ta") } }), unit: Some(Name { text: Text { held: Apart("tu") } }) } }"#,
    r#", Content { name: Name { text: Text { held: Apart("p") } }, common: "#,
    BARE,
    r#", kind: Property { schema: Named(Dtmi { text: "dtmi:e;1", path_end: 6, version: 1 })"#,
    r#", semantic: Some(Name { text: Text { held: Apart("Pa") } }), unit: Some(Name { text: Text { held: Apart("pu") } }), writable: true } }"#,
    r#", Content { name: Name { text: Text { held: Apart("c") } }, common: "#,
    BARE,
    r#", kind: Command { request: Some(Boxed { inner: Payload { name: Name { text: Text { held: Apart("rq") } }, common: "#,
    BARE,
    r#", schema: Primitive(Date) } }), response: Some(Boxed { inner: Payload { name: Name { text: Text { held: Apart("rs") } }, common: "#,
    BARE,
    r#", schema: Primitive(Time) } }) } }, Content { name: Name { text: Text { held: Apart("r") } }, common: "#,
    BARE,
    r#", kind: Relationship { target: Some(Dtmi { text: "dtmi:g;3", path_end: 6, version: 3 })"#,
    r#", properties: List { items: [Content { name: Name { text: Text { held: Apart("q") } }, common: "#,
    BARE,
    r#", kind: Property { schema: Primitive(Float), semantic: Some(Name { text: Text { held: Apart("Qa") } }), unit: Some(Name { text: Text { held: Apart("qu") } }), writable: false } }] }"#,
    r#", max: Some(7), writable: true } }, Content { name: Name { text: Text { held: Apart("k") } }, common: "#,
    BARE,
    r#", kind: Component { of: Dtmi { text: "dtmi:h;4", path_end: 6, version: 4 } } }] }, schemas: List { items: [Enumeration { common: Boxed { inner: "#,
    COMMON,
    r#""dtmi:e;1", path_end: 6, version: 1"#,
    NO_TEXTS,
    r#" }, of_text: true, values: List { items: [EnumEntry { name: Name { text: Text { held: Apart("x") } }, common: "#,
    BARE,
    r#", value: Word(Text { held: Apart("y") }) }] } }, Map { common: Boxed { inner: "#,
    COMMON,
    r#""dtmi:m;1", path_end: 6, version: 1"#,
    NO_TEXTS,
    r#" }, key: Boxed { inner: Payload { name: Name { text: Text { held: Apart("mk") } }, common: "#,
    BARE,
    r#", schema: Primitive(Str) } }, value: Boxed { inner: Payload { name: Name { text: Text { held: Apart("mv") } }, common: "#,
    BARE,
    r#", schema: Array { common: Boxed { inner: "#,
    BARE,
    r#" }, element: Boxed { inner: Primitive(Long) } } } } }, Object { common: Boxed { inner: "#,
    COMMON,
    r#""dtmi:f;1", path_end: 6, version: 1"#,
    NO_TEXTS,
    r#" }, fields: List { items: [Payload { name: Name { text: Text { held: Apart("f") } }, common: "#,
    BARE,
    r#", schema: Primitive(Boolean) }] } }, Enumeration { common: Boxed { inner: "#,
    COMMON,
    r#""dtmi:n;1", path_end: 6, version: 1"#,
    NO_TEXTS,
    r#" }, of_text: false, values: List { items: [EnumEntry { name: Name { text: Text { held: Apart("z") } }, common: "#,
    BARE,
    r#", value: Number(-3) }] } }] } }, document: 9, base: Text { held: Apart("/1") }, index: 1, id_at: 5, parents_at: Some(2), parents_as_text: true, contents_at: Some(0) }"#,
];

fn joined(alloc: Global, pieces: &[&str]) -> Result<String, Fail> {
    let mut text = String::new(alloc);
    for piece in pieces {
        text.push_str(piece)?;
    }
    Ok(text)
}

/// What is shown of the last interface of the document.
fn shown_last(alloc: Global) -> Result<String, Fail> {
    let uploads = uploads_of(alloc, DOCUMENT, 9)?;
    let text = match uploads.as_slice().last() {
        Some(uploaded) => shown(alloc, uploaded),
        None => Ok(String::new(alloc)),
    };
    drop(uploads);
    text
}

#[test]
fn prints_every_field(rt: HostRuntime) -> Result<(), Fail> {
    let got = shown_last(rt.alloc())?;
    let want = joined(rt.alloc(), &RECORD)?;
    assert_eq!(rt; got.as_str(), want.as_str());
    Ok(())
}
