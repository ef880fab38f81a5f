//! Values of arrays, which no property may be, and of a schema that is not there, which no model may name; and bodies whose
//! bytes are refused before they meet a model.

use dt_base::List;
use dt_base::names::Dtmi;
use dtdl_terms::{Boxed, Common, Localized, Primitive, Resolved, Schema};
use json_read::read;
use json_tree::{Place, Tree};
use std::alloc::Global;
use std::test::Fail;
use twin_value::*;

/// A breach as the ordinals of its place and its code.
fn told(alloc: Global, place: &Place, code: BodyCode) -> Result<String, Fail> {
    let mut text = String::new(alloc);
    for step in place.steps.as_slice() {
        text = format!(in alloc; "{text}/{step}")?;
    }
    let code = code.text();
    Ok(format!(in alloc; "{text} {code}")?)
}

fn texts(alloc: Global) -> Localized {
    Localized {
        entries: List::new(alloc),
    }
}

/// What the schema `dtmi:demo:row;1` has besides its parts.
fn row_common(alloc: Global) -> Result<Common, Fail> {
    let id = Dtmi::read(alloc, "dtmi:demo:row;1")?;
    Ok(Common {
        id: Some(id),
        comment: None,
        description: texts(alloc),
        display_name: texts(alloc),
    })
}

/// An array of integers, which is the schema `dtmi:demo:row;1`.
fn whole_numbers(alloc: Global) -> Result<Schema, Fail> {
    let common = Boxed::new(alloc, row_common(alloc)?)?;
    match Boxed::new(alloc, Schema::Primitive(Primitive::Integer)) {
        Ok(element) => Ok(Schema::Array { common, element }),
        Err(error) => {
            drop(common);
            Err(Fail::from(error))
        }
    }
}

/// The schemas that have a name: the array alone.
fn named_schemas(alloc: Global) -> Result<List<Schema>, Fail> {
    let array = whole_numbers(alloc)?;
    let mut named = List::new(alloc);
    match named.push(array) {
        Ok(_) => Ok(named),
        Err(error) => {
            drop(named);
            Err(Fail::from(error))
        }
    }
}

/// The first breach of a value of a schema, where these schemas have a name; nothing where the value fits.
fn breach_of(
    alloc: Global,
    tree: &Tree,
    schema: &Schema,
    named: &[Schema],
) -> Result<String, Fail> {
    let Some((place, code)) = fit_value(alloc, tree, schema, named)? else {
        return Ok(String::new(alloc));
    };
    let text = told(alloc, &place, code);
    drop(place);
    text
}

/// The same of the value that a text spells.
fn fitted(alloc: Global, value: &str, schema: &Schema, named: &[Schema]) -> Result<String, Fail> {
    let tree = read(alloc, value.as_bytes())?;
    let text = breach_of(alloc, &tree, schema, named);
    drop(tree);
    text
}

/// A value, and its first breach as an array of integers.
const ARRAYS: [(&str, &str); 4] = [
    ("[]", ""),
    ("[1,2]", ""),
    ("[1,2,\"3\"]", "/2 BadValue"),
    ("{}", " BadValue"),
];

/// The first of the arrays whose breach is another one.
fn amiss_among(
    alloc: Global,
    array: &Schema,
    named: &[Schema],
) -> Result<Option<&'static str>, Fail> {
    for (value, want) in ARRAYS {
        if fitted(alloc, value, array, named)?.as_str() != want {
            return Ok(Some(value));
        }
    }
    Ok(None)
}

fn amiss(alloc: Global) -> Result<Option<&'static str>, Fail> {
    let named = named_schemas(alloc)?;
    let found = match named.as_slice().first() {
        Some(array) => amiss_among(alloc, array, named.as_slice()),
        None => Ok(Some("no array")),
    };
    drop(named);
    found
}

#[test]
fn arrays_fit_by_their_entries(rt: HostRuntime) -> Result<(), Fail> {
    assert_eq!(rt; amiss(rt.alloc())?, None);
    Ok(())
}

/// The breach of a number as a value of a schema that is not there.
fn breach_of_lost(alloc: Global) -> Result<String, Fail> {
    let lost = Schema::Named(Dtmi::read(alloc, "dtmi:demo:row;2")?);
    let text = match named_schemas(alloc) {
        Ok(named) => {
            let text = fitted(alloc, "1", &lost, named.as_slice());
            drop(named);
            text
        }
        Err(error) => Err(error),
    };
    drop(lost);
    text
}

#[test]
fn nothing_fits_a_schema_that_is_not_there(rt: HostRuntime) -> Result<(), Fail> {
    assert_eq!(rt; breach_of_lost(rt.alloc())?.as_str(), " BadValue");
    Ok(())
}

/// A model that declares nothing.
fn nothing(alloc: Global) -> Resolved {
    Resolved {
        contents: List::new(alloc),
        ancestors: List::new(alloc),
        named: List::new(alloc),
        parts: List::new(alloc),
    }
}

/// Why a body stands for nothing.
fn ended(alloc: Global, end: BodyEnd) -> Result<String, Fail> {
    match end {
        BodyEnd::Fault { place, code } => {
            let text = told(alloc, &place, code);
            drop(place);
            text
        }
        BodyEnd::OutOfMemory => Ok(String::new(alloc)),
    }
}

/// Why the body of a twin stands for none, where its model declares nothing.
fn twin_breach(alloc: Global, tree: &Tree) -> Result<String, Fail> {
    let model = nothing(alloc);
    let read = read_twin(alloc, "t1", tree, &model);
    drop(model);
    match read {
        Ok(twin) => {
            drop(twin);
            Ok(String::new(alloc))
        }
        Err(end) => ended(alloc, end),
    }
}

/// Why the body of a relationship stands for none, where the model of its source declares nothing.
fn link_breach(alloc: Global, tree: &Tree) -> Result<String, Fail> {
    let model = nothing(alloc);
    let read = read_rel(alloc, "t1", "m1", tree, &model);
    drop(model);
    match read {
        Ok(link) => {
            drop(link);
            Ok(String::new(alloc))
        }
        Err(end) => ended(alloc, end),
    }
}

/// Whether a body is that of a twin.
#[derive(Clone, Copy, PartialEq)]
enum Of {
    Twin,
    Link,
}

/// Bodies, and their first breaches where a model declares nothing. An unknown relationship is the only breach of its body.
const BODIES: [(Of, &str, &str); 3] = [
    (Of::Twin, r#"{"zz":1,"$metadata":{}}"#, "/0 UnknownMember"),
    (
        Of::Link,
        r#"{"zz":1,"$targetId":7,"$relationshipName":"drains"}"#,
        "/2 UnknownRelationship",
    ),
    (
        Of::Link,
        r#"{"$relationshipName":"count"}"#,
        "/0 UnknownRelationship",
    ),
];

fn body_breach(alloc: Global, of: Of, body: &str) -> Result<String, Fail> {
    let tree = read(alloc, body.as_bytes())?;
    let text = match of {
        Of::Twin => twin_breach(alloc, &tree),
        Of::Link => link_breach(alloc, &tree),
    };
    drop(tree);
    text
}

#[test]
fn breaches_of_bodies_come_by_their_places(rt: HostRuntime) -> Result<(), Fail> {
    for (of, body, want) in BODIES {
        assert_eq!(rt; body_breach(rt.alloc(), of, body)?.as_str(), want, "{body}");
    }
    Ok(())
}
