//! The calls of `json_tree` and `json_read` that no command makes yet, once each where memory is there.

use json_read::{one_printed, read};
use json_tree::{Tree, at, print, sorted};
use std::alloc::Global;
use std::test::Fail;

const TEXT: &[u8] = br#"{"b":[{"d":1,"c":2}],"a/~":null}"#;

/// Whether a tree prints as this text.
fn prints_as(alloc: Global, tree: &Tree, text: &str) -> Result<bool, Fail> {
    Ok(print(alloc, tree)?.as_str() == text)
}

/// Whether the tree prints as this text when its members are sorted.
fn is_sorted_as(alloc: Global, text: &str) -> Result<bool, Fail> {
    let tree = read(alloc, TEXT)?;
    let sorted = sorted(alloc, &tree);
    drop(tree);
    let sorted = sorted?;
    let is_so = prints_as(alloc, &sorted, text);
    drop(sorted);
    is_so
}

#[test]
fn sorts_members_at_every_depth(rt: HostRuntime) -> Result<(), Fail> {
    assert!(rt; is_sorted_as(rt.alloc(), r#"{"a/~":null,"b":[{"c":2,"d":1}]}"#)?);
    Ok(())
}

/// A copy of the tree, which prints as it does.
fn copy_of_tree(alloc: Global) -> Result<Tree, Fail> {
    let tree = read(alloc, TEXT)?;
    let copy = tree.copy(alloc);
    if let Ok(copy) = &copy {
        one_printed(&tree, copy);
    }
    drop(tree);
    Ok(copy?)
}

/// Whether a copy of the tree prints as this text.
fn is_copied_as(alloc: Global, text: &str) -> Result<bool, Fail> {
    let copy = copy_of_tree(alloc)?;
    let is_so = prints_as(alloc, &copy, text);
    drop(copy);
    is_so
}

#[test]
fn copies_a_tree(rt: HostRuntime) -> Result<(), Fail> {
    assert!(rt; is_copied_as(rt.alloc(), r#"{"b":[{"d":1,"c":2}],"a/~":null}"#)?);
    Ok(())
}

/// Whether what stands at a pointer prints as this text, or nothing stands there.
fn has_at(alloc: Global, tree: &Tree, pointer: &str, text: Option<&str>) -> Result<bool, Fail> {
    match (at(tree, pointer), text) {
        (Some(part), Some(text)) => prints_as(alloc, part, text),
        (part, text) => Ok(part.is_none() && text.is_none()),
    }
}

/// Whether what stands in the tree at a pointer prints as this text, or nothing stands there.
fn leads_to(alloc: Global, pointer: &str, text: Option<&str>) -> Result<bool, Fail> {
    let tree = read(alloc, TEXT)?;
    let is_so = has_at(alloc, &tree, pointer, text);
    drop(tree);
    is_so
}

/// Pointers, and the text of what stands there, if anything does.
const POINTERS: [(&str, Option<&str>); 7] = [
    ("", Some(r#"{"b":[{"d":1,"c":2}],"a/~":null}"#)),
    ("/b/0/c", Some("2")),
    ("/a~1~0", Some("null")),
    ("/b/00", None),
    ("/b/1", None),
    ("/a~2", None),
    ("b", None),
];

#[test]
fn follows_pointers(rt: HostRuntime) -> Result<(), Fail> {
    for (pointer, text) in POINTERS {
        assert!(rt; leads_to(rt.alloc(), pointer, text)?, "{pointer}");
    }
    Ok(())
}
