//! Documents that are read batch by batch: each interface comes with its place in the whole document, and of a document with a
//! fault there are none.

use documents::faultless::faultless_interfaces;
use dtdl_terms::Uploaded;
use std::alloc::Global;
use std::test::Fail;

const START: &str = r#"{"@context":"dtmi:dtdl:context;2","@id":"dtmi:n"#;

/// Behind the number in an identifier. The comment has what would end an element, a list or a text elsewhere.
const REST: &str = r#";1","@type":"Interface","comment":"]},{\"[,\\"}"#;

/// A list of so many interfaces of some hundred bytes, up to its end, which is this.
fn list_with(alloc: Global, count: usize, end: &str) -> Result<String, Fail> {
    let mut text = String::from_str(alloc, "[")?;
    for at in 0..count {
        if at > 0 {
            text.push(',')?;
        }
        let interface = format!(in alloc; "{START}{at}{REST}")?;
        text.push_str(interface.as_str())?;
    }
    text.push_str(end)?;
    Ok(text)
}

/// The identifier of each interface, its pointer, its index and the number of its document, a line each.
fn places_of(alloc: Global, uploads: &[Uploaded]) -> Result<String, Fail> {
    let mut places = String::new(alloc);
    for upload in uploads {
        let id = upload.interface.id.as_str();
        let base = upload.base.as_str();
        let line = format!(in alloc; "{id} \"{base}\" {} {}\n", upload.index, upload.document)?;
        places.push_str(line.as_str())?;
    }
    Ok(places)
}

/// The same of what is read of a document with this number; `none` where it is read otherwise.
fn read_places(alloc: Global, text: &str, document: u32) -> Result<String, Fail> {
    let Some(uploads) = faultless_interfaces(alloc, text.as_bytes(), document)? else {
        return Ok(String::from_str(alloc, "none")?);
    };
    let places = places_of(alloc, uploads.as_slice());
    drop(uploads);
    places
}

/// What is wanted of a list of so many.
fn places_in_list(alloc: Global, count: usize, document: u32) -> Result<String, Fail> {
    let mut places = String::new(alloc);
    for at in 0..count {
        let line = format!(in alloc; "dtmi:n{at};1 \"/{at}\" {at} {document}\n")?;
        places.push_str(line.as_str())?;
    }
    Ok(places)
}

#[test]
fn reads_each_interface_at_its_place(rt: HostRuntime) -> Result<(), Fail> {
    let alloc = rt.alloc();
    for count in [1, 30, 200] {
        let text = list_with(alloc, count, " ]\n")?;
        let got = read_places(alloc, text.as_str(), 7)?;
        let want = places_in_list(alloc, count, 7)?;
        assert_eq!(rt; got.as_str(), want.as_str());
    }
    Ok(())
}

#[test]
fn reads_an_interface_that_is_no_list(rt: HostRuntime) -> Result<(), Fail> {
    let text = format!(in rt.alloc(); " {START}{REST}\n")?;
    let got = read_places(rt.alloc(), text.as_str(), 2)?;
    assert_eq!(rt; got.as_str(), "dtmi:n;1 \"\" 0 2\n");
    Ok(())
}

/// What makes a fault at the end of a long list.
const FAULTS: [&str; 10] = [
    "",
    "]]",
    "}",
    ",]",
    ",,5]",
    ",5]",
    ",{}]",
    ",[]]",
    r#","],[{"]"#,
    r#",{"a":1,"a":2}]"#,
];

#[test]
fn gives_none_of_a_list_with_a_fault(rt: HostRuntime) -> Result<(), Fail> {
    for end in FAULTS {
        let text = list_with(rt.alloc(), 100, end)?;
        let got = read_places(rt.alloc(), text.as_str(), 1)?;
        assert_eq!(rt; got.as_str(), "none", "{end}");
    }
    Ok(())
}
