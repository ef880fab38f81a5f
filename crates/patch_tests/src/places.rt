//! Copies of places and of pointers, through the public calls of `json_tree`. Each original is let go before its copy is
//! looked at.

use dt_base::{List, OutOfMemory, Text};
use json_tree::{Place, Pointer};
use std::alloc::Global;
use std::test::Fail;

/// A place with these steps.
fn place_of(alloc: Global, steps: &[u64]) -> Result<Place, OutOfMemory> {
    let steps = Vec::from_slice(alloc, steps)?;
    Ok(Place {
        steps: List::from_vec(steps),
    })
}

/// The copy of a place with these steps.
fn place_copy(alloc: Global, steps: &[u64]) -> Result<Place, OutOfMemory> {
    let place = place_of(alloc, steps)?;
    let copy = place.copy(alloc);
    drop(place);
    copy
}

/// Whether the copy of a place with these steps has them.
fn keeps_steps(alloc: Global, steps: &[u64]) -> Result<bool, OutOfMemory> {
    let copy = place_copy(alloc, steps)?;
    let is_so = copy.steps.as_slice() == steps;
    drop(copy);
    Ok(is_so)
}

/// The steps of places: of the whole, of a member, and of further ones below it.
const PLACES: [&[u64]; 5] = [
    &[],
    &[0],
    &[7],
    &[3, 0, 12],
    &[0, 18_446_744_073_709_551_615],
];

#[test]
fn copies_places(rt: HostRuntime) -> Result<(), Fail> {
    for steps in PLACES {
        assert!(rt; keeps_steps(rt.alloc(), steps)?, "{} steps", steps.len());
    }
    Ok(())
}

/// The copy of a pointer with this text.
fn pointer_copy(alloc: Global, text: &str) -> Result<Pointer, OutOfMemory> {
    let text = Text::from_str(alloc, text)?;
    let pointer = Pointer { text };
    let copy = pointer.copy(alloc);
    drop(pointer);
    copy
}

/// Whether the copy of a pointer with this text has it.
fn keeps_text(alloc: Global, text: &str) -> Result<bool, OutOfMemory> {
    let copy = pointer_copy(alloc, text)?;
    let is_so = copy.text.as_str() == text;
    drop(copy);
    Ok(is_so)
}

/// Pointers of RFC 6901, section 5, and one that is too long to be held in place.
const POINTERS: [&str; 6] = [
    "",
    "/",
    "/foo/0",
    "/a~1b",
    "/m~0n",
    "/contents/0/schema/fields/12/schema/elementSchema",
];

#[test]
fn copies_pointers(rt: HostRuntime) -> Result<(), Fail> {
    for text in POINTERS {
        assert!(rt; keeps_text(rt.alloc(), text)?, "{text}");
    }
    Ok(())
}
