//! Texts from the specification's grammar and its examples, and the bounds.

use dt_base::OutOfMemory;
use dt_base::names::{Dtmi, Name, NameFault, has_dtmi_form, order, same_path};
use std::alloc::Global;
use std::cmp::Ordering;
use std::test::Fail;

/// The start, so many letters, and the end.
fn long_text(alloc: Global, start: &str, letters: usize, end: &str) -> Result<String, OutOfMemory> {
    let mut text = String::from_str(alloc, start)?;
    for _ in 0..letters {
        text.push('a')?;
    }
    text.push_str(end)?;
    Ok(text)
}

/// The fault of a name of so many letters with this end.
fn fault_of_name(
    alloc: Global,
    letters: usize,
    end: &str,
) -> Result<Option<NameFault>, OutOfMemory> {
    let text = long_text(alloc, "", letters, end)?;
    Ok(Name::read(alloc, text.as_str()).err())
}

/// Names of so many letters and an end, and their faults.
const NAMES: [(usize, &str, Option<NameFault>); 15] = [
    (1, "", None),
    (
        0,
        "abcdefghijklmnopqrstuvwxyzABCDEFGHIJKLMNOPQRSTUVWXYZabcdefghijkz",
        None,
    ),
    (0, "Temperature_2", None),
    (1, "__9", None),
    (1, "_", Some(NameFault::Ends)),
    (0, "_a", Some(NameFault::BadByte { at: 0 })),
    (0, "9a", Some(NameFault::BadByte { at: 0 })),
    (1, "-b", Some(NameFault::BadByte { at: 1 })),
    (2, ";", Some(NameFault::BadByte { at: 2 })),
    (0, "né", Some(NameFault::BadByte { at: 1 })),
    (0, "", Some(NameFault::Empty)),
    (63, "Z", None),
    (63, "_", Some(NameFault::BadByte { at: 63 })),
    (63, "_z", Some(NameFault::TooLong)),
    (63, "zz", Some(NameFault::TooLong)),
];

/// The position of the first name that has another fault, or none.
fn first_wrong_name(
    alloc: Global,
    rows: &[(usize, &str, Option<NameFault>)],
) -> Result<Option<usize>, OutOfMemory> {
    for (at, (letters, end, want)) in rows.iter().enumerate() {
        if fault_of_name(alloc, *letters, end)? != *want {
            return Ok(Some(at));
        }
    }
    Ok(None)
}

#[test]
fn reads_names(rt: HostRuntime) -> Result<(), Fail> {
    assert_eq!(rt; first_wrong_name(rt.alloc(), &NAMES)?, None);
    Ok(())
}

/// Whether a copy of a name has its text.
fn is_copied(alloc: Global, name: &Name, text: &str) -> Result<bool, OutOfMemory> {
    let copy = name.copy(alloc)?;
    Ok(copy.as_str() == text)
}

/// Whether a text is a name, and a copy of it has its text.
fn is_name(alloc: Global, text: &str) -> Result<bool, OutOfMemory> {
    let Ok(name) = Name::read(alloc, text) else {
        return Ok(false);
    };
    let is_copied = is_copied(alloc, &name, text);
    drop(name);
    is_copied
}

#[test]
fn copies_names(rt: HostRuntime) -> Result<(), Fail> {
    assert!(rt; is_name(rt.alloc(), "speed")?);
    Ok(())
}

/// The fault of an identifier of this start, so many letters and this end.
fn fault_of_dtmi(
    alloc: Global,
    start: &str,
    letters: usize,
    end: &str,
) -> Result<Option<NameFault>, OutOfMemory> {
    let text = long_text(alloc, start, letters, end)?;
    Ok(Dtmi::read(alloc, text.as_str()).err())
}

/// Identifiers of a start, so many letters and an end, and their faults.
const DTMIS: [(&str, usize, &str, Option<NameFault>); 22] = [
    ("dtmi:com:example:Thermostat;1", 0, "", None),
    ("dtmi:", 1, ";999999999", None),
    ("dtmi:dtdlx:", 1, ";1", None),
    (
        "dtmi:foo_bar:_16:baz33:qux;12",
        0,
        "",
        Some(NameFault::BadByte { at: 13 }),
    ),
    ("dtmi:", 1, "_;1", Some(NameFault::BadByte { at: 7 })),
    ("dtmi::", 1, ";1", Some(NameFault::BadByte { at: 5 })),
    ("DTMI:", 1, ";1", Some(NameFault::BadByte { at: 0 })),
    ("dtmi:", 1, ";0", Some(NameFault::BadVersion)),
    ("dtmi:", 1, ";1x", Some(NameFault::BadVersion)),
    ("dtmi:", 1, ";1000000000", Some(NameFault::BadVersion)),
    ("dtmi:", 1, ";", Some(NameFault::Ends)),
    ("dtmi:", 1, "", Some(NameFault::Ends)),
    ("dtmi:", 0, "", Some(NameFault::Ends)),
    ("dtmi:dtdl:", 1, ";1", Some(NameFault::Reserved)),
    ("dtmi:standard:", 1, ";1", Some(NameFault::Reserved)),
    ("dtmi:dtdl:", 1, ";0", Some(NameFault::BadVersion)),
    ("", 0, "", Some(NameFault::Empty)),
    ("dtmi:", 2041, ";1", None),
    ("dtmi:", 2041, "", Some(NameFault::Ends)),
    ("dtmi:", 2042, "", Some(NameFault::BadByte { at: 2046 })),
    ("dtmi:", 2040, "_", Some(NameFault::BadByte { at: 2045 })),
    ("dtmi:", 2042, ";1", Some(NameFault::TooLong)),
];

/// The position of the first identifier that has another fault, or none.
fn first_wrong_dtmi(
    alloc: Global,
    rows: &[(&str, usize, &str, Option<NameFault>)],
) -> Result<Option<usize>, OutOfMemory> {
    for (at, (start, letters, end, want)) in rows.iter().enumerate() {
        if fault_of_dtmi(alloc, start, *letters, end)? != *want {
            return Ok(Some(at));
        }
    }
    Ok(None)
}

#[test]
fn reads_dtmis(rt: HostRuntime) -> Result<(), Fail> {
    assert_eq!(rt; first_wrong_dtmi(rt.alloc(), &DTMIS)?, None);
    Ok(())
}

/// Whether a text of this start, so many letters and this end has the form of an identifier.
fn has_form(alloc: Global, start: &str, letters: usize, end: &str) -> Result<bool, OutOfMemory> {
    let text = long_text(alloc, start, letters, end)?;
    Ok(has_dtmi_form(text.as_str()))
}

#[test]
fn a_form_has_no_bound(rt: HostRuntime) -> Result<(), Fail> {
    let alloc = rt.alloc();
    assert!(rt; has_dtmi_form("dtmi:dtdl:context;2") && !has_dtmi_form("dtmi:x"));
    assert!(rt; has_form(alloc, "dtmi:", 9000, ";1")?);
    Ok(())
}

/// Whether two identifiers compare so, by name and by the operators.
fn are_so(left: &Dtmi, right: &Dtmi, same: bool, want: Ordering) -> bool {
    let by_name = same_path(left, right) == same && order(left, right) == want;
    let by_sign = [left == right, left < right, left > right];
    by_name && by_sign == [want.is_eq(), want.is_lt(), want.is_gt()]
}

/// Whether the identifiers of two texts compare so: whether they differ in their version at most, and their order.
fn compare_so(alloc: Global, left: &str, right: &str, same: bool, want: Ordering) -> bool {
    let (left, right) = (Dtmi::read(alloc, left), Dtmi::read(alloc, right));
    let is_so = match (&left, &right) {
        (Ok(left), Ok(right)) => are_so(left, right, same, want),
        _ => false,
    };
    drop((left, right));
    is_so
}

#[test]
fn compares_dtmis(rt: HostRuntime) -> Result<(), Fail> {
    let alloc = rt.alloc();
    let ten = "dtmi:com:example:Room;10";
    let nine = "dtmi:com:example:Room;9";
    let upper = "dtmi:com:example;10";
    assert!(rt;
        compare_so(alloc, ten, nine, true, Ordering::Less)
            && compare_so(alloc, ten, ten, true, Ordering::Equal)
            && compare_so(alloc, upper, ten, false, Ordering::Greater)
    );
    Ok(())
}

/// Whether an identifier has this text and version, and is printed and copied so.
fn is_told_by(alloc: Global, id: &Dtmi, text: &str, version: u32) -> Result<bool, OutOfMemory> {
    let is_printed = id.print(alloc)?.as_str() == text;
    let copy = id.copy(alloc)?;
    let is_same = copy == *id;
    drop(copy);
    Ok(is_same && is_printed && id.version() == version && id.as_str() == text)
}

/// Whether a text is an identifier of this version, and is printed and copied so.
fn is_told_so(alloc: Global, text: &str, version: u32) -> Result<bool, OutOfMemory> {
    let Ok(id) = Dtmi::read(alloc, text) else {
        return Ok(false);
    };
    let is_told = is_told_by(alloc, &id, text, version);
    drop(id);
    is_told
}

#[test]
fn prints_and_copies_dtmis(rt: HostRuntime) -> Result<(), Fail> {
    assert!(rt; is_told_so(rt.alloc(), "dtmi:com:example:Room;10", 10)?);
    Ok(())
}
