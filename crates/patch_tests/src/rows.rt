//! Rows: the examples of RFC 6902, the public vectors of json-patch-tests on objects, and each code at its least index.

ghost use Rattle.std.specs.Prelude.{All, IfOk};
ghost use Rattle.json_tree.specs.Values.{HasDistinctKeys};
ghost use Rattle.json_tree.specs.View.{view};
ghost use Rattle.twin_patch.specs.Operations.{change_of, BringsDistinctKeys};
ghost use Rattle.twin_patch.specs.declared.patch.Op.{Op};

use json_read::read;
use json_tree::{Tree, print};
use std::alloc::Global;
use std::test::Fail;
use twin_patch::{ApplyEnd, Patch, PatchCode, PatchEnd, PatchOf, apply, read_patch};

/// The tree of a text.
fn tree_of(alloc: Global, text: &str) -> Result<Tree, Fail>
    ensures { IfOk result (λ tree. HasDistinctKeys (view tree)) }
{
    let tree = read(alloc, text.as_bytes())?;
    Ok(tree)
}

/// The patch that a text spells, or why it is none.
fn patch_of(alloc: Global, text: &str, of: PatchOf) -> Result<Result<Patch, PatchEnd>, Fail>
    ensures { IfOk result (λ read. IfOk read (λ patch. All (λ (op : Op). BringsDistinctKeys (change_of op.kind)) patch.ops)) }
{
    let tree = tree_of(alloc, text)?;
    let read = read_patch(alloc, &tree, of);
    drop(tree);
    Ok(read)
}

/// The text of a code and of an index.
fn fault_text(alloc: Global, code: PatchCode, index: u64) -> Result<String, Fail> {
    Ok(format!(in alloc; "{} {index}", code.text())?)
}

/// The text of a tree.
fn tree_text(alloc: Global, tree: Tree) -> Result<String, Fail> {
    let text = print(alloc, &tree);
    drop(tree);
    Ok(text?.into_string(alloc)?)
}

/// What a copy of a patch makes of a tree.
fn applied(alloc: Global, tree: &Tree, patch: &Patch) -> Result<String, Fail>
    requires distinct { HasDistinctKeys (view tree.now) }
    requires brought { All (λ (op : Op). BringsDistinctKeys (change_of op.kind)) patch.now.ops }
{
    let copy = patch.copy(alloc)?;
    let end = apply(alloc, tree, &copy);
    drop(copy);
    match end {
        Ok(tree) => tree_text(alloc, tree),
        Err(ApplyEnd::NoTarget { index }) => fault_text(alloc, PatchCode::NoTarget, index),
        Err(ApplyEnd::OutOfMemory) => Ok(String::from_str(alloc, "out of memory")?),
    }
}

/// What a patch makes of a tree, as it is printed: the patched tree, or a code and an index.
fn outcome(alloc: Global, tree: &Tree, patch: &str, of: PatchOf) -> Result<String, Fail>
    requires { HasDistinctKeys (view tree.now) }
{
    match patch_of(alloc, patch, of)? {
        Ok(patch) => {
            let applied = applied(alloc, tree, &patch);
            drop(patch);
            applied
        }
        Err(PatchEnd::Fault { index, code }) => fault_text(alloc, code, index),
        Err(PatchEnd::OutOfMemory) => Ok(String::from_str(alloc, "out of memory")?),
    }
}

/// Whether a patch makes this of a tree.
fn makes(alloc: Global, tree: &str, patch: &str, of: PatchOf, line: &str) -> Result<bool, Fail> {
    let tree = tree_of(alloc, tree)?;
    let outcome = outcome(alloc, &tree, patch, of);
    drop(tree);
    Ok(outcome?.as_str() == line)
}

/// The examples of RFC 6902, appendix A. Lists are no targets here.
const EXAMPLES: [(&str, &str, &str); 15] = [
    // RFC 6902, appendix A: A.1, A.3, A.5, A.10, A.11, A.12
    (
        r#"{"foo":"bar"}"#,
        r#"[{"op":"add","path":"/baz","value":"qux"}]"#,
        r#"{"baz":"qux","foo":"bar"}"#,
    ),
    (
        r#"{"baz":"qux","foo":"bar"}"#,
        r#"[{"op":"remove","path":"/baz"}]"#,
        r#"{"foo":"bar"}"#,
    ),
    (
        r#"{"baz":"qux","foo":"bar"}"#,
        r#"[{"op":"replace","path":"/baz","value":"boo"}]"#,
        r#"{"baz":"boo","foo":"bar"}"#,
    ),
    (
        r#"{"foo":"bar"}"#,
        r#"[{"op":"add","path":"/child","value":{"grandchild":{}}}]"#,
        r#"{"child":{"grandchild":{}},"foo":"bar"}"#,
    ),
    (
        r#"{"foo":"bar"}"#,
        r#"[{"op":"add","path":"/baz","value":"qux","xyz":123}]"#,
        r#"{"baz":"qux","foo":"bar"}"#,
    ),
    (
        r#"{"foo":"bar"}"#,
        r#"[{"op":"add","path":"/baz/bat","value":"qux"}]"#,
        "NoTarget 0",
    ),
    // A.2, A.4, A.16: lists are no targets here; A.6 to A.9, A.14 and A.15: other operations
    (
        r#"{"foo":["bar","baz"]}"#,
        r#"[{"op":"add","path":"/foo/1","value":"qux"}]"#,
        "NoTarget 0",
    ),
    (
        r#"{"foo":["bar","qux","baz"]}"#,
        r#"[{"op":"remove","path":"/foo/1"}]"#,
        "NoTarget 0",
    ),
    (
        r#"{"foo":["bar"]}"#,
        r#"[{"op":"add","path":"/foo/-","value":["abc","def"]}]"#,
        "NoTarget 0",
    ),
    (
        r#"{"foo":{"bar":"baz"},"qux":{}}"#,
        r#"[{"op":"move","from":"/foo/bar","path":"/qux/thud"}]"#,
        "BadOp 0",
    ),
    (
        r#"{"foo":["all","grass","cows","eat"]}"#,
        r#"[{"op":"move","from":"/foo/1","path":"/foo/3"}]"#,
        "BadOp 0",
    ),
    (
        r#"{"baz":"qux","foo":["a",2,"c"]}"#,
        r#"[{"op":"test","path":"/baz","value":"qux"},{"op":"test","path":"/foo/1","value":2}]"#,
        "BadOp 0",
    ),
    (
        r#"{"baz":"qux"}"#,
        r#"[{"op":"test","path":"/baz","value":"bar"}]"#,
        "BadOp 0",
    ),
    (
        r#"{"/":9,"~1":10}"#,
        r#"[{"op":"test","path":"/~01","value":10}]"#,
        "BadOp 0",
    ),
    (
        r#"{"/":9,"~1":10}"#,
        r#"[{"op":"test","path":"/~01","value":"10"}]"#,
        "BadOp 0",
    ),
];

/// The public vectors of json-patch-tests on objects.
const VECTORS: [(&str, &str, &str); 18] = [
    (
        r#"{"foo":null}"#,
        r#"[{"op":"add","path":"/foo","value":1}]"#,
        r#"{"foo":1}"#,
    ),
    (
        r#"{}"#,
        r#"[{"op":"add","path":"/foo","value":"1"}]"#,
        r#"{"foo":"1"}"#,
    ),
    (
        r#"{}"#,
        r#"[{"op":"add","path":"/","value":1}]"#,
        r#"{"":1}"#,
    ),
    (
        r#"{"foo":{}}"#,
        r#"[{"op":"add","path":"/foo/","value":1}]"#,
        r#"{"foo":{"":1}}"#,
    ),
    (
        r#"{"foo":1}"#,
        r#"[{"op":"add","path":"/bar","value":[1,2]}]"#,
        r#"{"bar":[1,2],"foo":1}"#,
    ),
    (
        r#"{"foo":1}"#,
        r#"[{"op":"add","path":"/bar","value":null}]"#,
        r#"{"bar":null,"foo":1}"#,
    ),
    (
        r#"{"foo":1}"#,
        r#"[{"op":"add","path":"/0","value":"bar"}]"#,
        r#"{"0":"bar","foo":1}"#,
    ),
    (
        r#"{"foo":"bar"}"#,
        r#"[{"op":"add","path":"/FOO","value":"BAR"}]"#,
        r#"{"FOO":"BAR","foo":"bar"}"#,
    ),
    (
        r#"{"foo":1,"bar":[1,2,3,4]}"#,
        r#"[{"op":"remove","path":"/bar"}]"#,
        r#"{"foo":1}"#,
    ),
    (
        r#"{"foo":null}"#,
        r#"[{"op":"replace","path":"/foo","value":"truthy"}]"#,
        r#"{"foo":"truthy"}"#,
    ),
    (
        r#"{"foo":null}"#,
        r#"[{"op":"remove","path":"/foo"}]"#,
        r#"{}"#,
    ),
    (
        r#"{"foo":"bar"}"#,
        r#"[{"op":"replace","path":"/foo","value":null}]"#,
        r#"{"foo":null}"#,
    ),
    (
        r#"{"bar":"baz"}"#,
        r#"[{"op":"replace","path":"/foo/bar","value":false}]"#,
        "NoTarget 0",
    ),
    (
        r#"{"foo":"bar"}"#,
        r#"[{"op":"remove","path":"/baz"}]"#,
        "NoTarget 0",
    ),
    (
        r#"{"foo":"bar"}"#,
        r#"[{"op":"remove","path":"/missing1/missing2"}]"#,
        "NoTarget 0",
    ),
    (
        r#"{"foo":"bar"}"#,
        r#"[{"op":"add","path":"","value":{}}]"#,
        "BadPath 0",
    ),
    (
        r#"{"foo":"bar"}"#,
        r#"[{"op":"add","path":"foo","value":"bar"}]"#,
        "BadPath 0",
    ),
    (
        r#"{"foo":"bar"}"#,
        r#"[{"op":"spam","path":"/foo","value":1}]"#,
        "BadOp 0",
    ),
];

/// Further ones, and paths of escaped and of empty keys.
const FURTHER: [(&str, &str, &str); 13] = [
    (r#"{"foo":1}"#, "[]", r#"{"foo":1}"#),
    (r#"{"foo":1,"bar":2}"#, "[]", r#"{"bar":2,"foo":1}"#),
    (
        r#"{"foo":1}"#,
        r#"[{"op":"add","path":"/bar","value":true}]"#,
        r#"{"bar":true,"foo":1}"#,
    ),
    (
        r#"{"foo":1}"#,
        r#"[{"op":"add","path":"/bar","value":false}]"#,
        r#"{"bar":false,"foo":1}"#,
    ),
    (
        r#"{"foo":1,"baz":[{"qux":"hello"}]}"#,
        r#"[{"op":"replace","path":"/foo","value":[1,2,3,4]}]"#,
        r#"{"baz":[{"qux":"hello"}],"foo":[1,2,3,4]}"#,
    ),
    (
        r#"{"foo":1,"baz":[{"qux":"hello"}]}"#,
        r#"[{"op":"remove","path":"/baz/0/qux"}]"#,
        "NoTarget 0",
    ),
    (
        r#"{"q":{"bar":2}}"#,
        r#"[{"op":"add","path":"/a/b","value":1}]"#,
        "NoTarget 0",
    ),
    (r#"{}"#, r#"[{"op":"add","value":"bar"}]"#, "BadPath 0"),
    (
        r#"{}"#,
        r#"[{"op":"add","path":null,"value":"bar"}]"#,
        "BadPath 0",
    ),
    (
        r#"{}"#,
        r#"[{"op":"replace","path":"/0"}]"#,
        "MissingValue 0",
    ),
    (
        r#"{"/":9,"~1":10}"#,
        r#"[{"op":"replace","path":"/~01","value":11},{"op":"remove","path":"/~1"}]"#,
        r#"{"~1":11}"#,
    ),
    (
        r#"{"":{"":1},"a":1}"#,
        r#"[{"op":"remove","path":"//"}]"#,
        r#"{"":{},"a":1}"#,
    ),
    (
        r#"{"b":{"c":1},"a":1}"#,
        r#"[{"op":"replace","path":"/b","value":1},{"op":"add","path":"/b/c","value":1}]"#,
        "NoTarget 1",
    ),
];

/// Patches, what they are for, and the least fault.
const FAULTS: [(&str, PatchOf, &str); 15] = [
    ("{}", PatchOf::Twin, "NotAList 0"),
    ("[1]", PatchOf::Rel, "NotAnObject 0"),
    (
        r#"[{"op":"remove","path":"/a"},{"op":5}]"#,
        PatchOf::Twin,
        "BadOp 1",
    ),
    (r#"[{"path":"/a"}]"#, PatchOf::Part, "BadOp 0"),
    (
        r#"[{"op":"remove","path":null}]"#,
        PatchOf::Twin,
        "BadPath 0",
    ),
    (r#"[{"op":"remove"}]"#, PatchOf::Twin, "BadPath 0"),
    (
        r#"[{"op":"remove","path":"/a~2"}]"#,
        PatchOf::Twin,
        "BadPath 0",
    ),
    (
        r#"[{"op":"remove","path":"/a~"}]"#,
        PatchOf::Twin,
        "BadPath 0",
    ),
    (
        r#"[{"op":"add","path":"/a"}]"#,
        PatchOf::Twin,
        "MissingValue 0",
    ),
    (
        r#"[{"op":"replace","path":"/$a"}]"#,
        PatchOf::Twin,
        "MissingValue 0",
    ),
    (
        r#"[{"op":"remove","path":"/a"},{"op":"remove","path":"/$a/b"}]"#,
        PatchOf::Twin,
        "Protected 1",
    ),
    // In the order of the codes at one index, and by the index before that.
    (
        r#"[{"op":"add","path":"/$a/~2"}]"#,
        PatchOf::Rel,
        "BadPath 0",
    ),
    (r#"[{"op":"copy","path":5}]"#, PatchOf::Model, "BadOp 0"),
    (
        r#"[{"op":"remove","path":"/$a"},{"op":"copy"}]"#,
        PatchOf::Part,
        "Protected 0",
    ),
    (
        r#"[{"op":"remove","path":"/$metadata"}]"#,
        PatchOf::Model,
        "Protected 0",
    ),
];

/// The same for protected members and marks, and patches that are applied.
const OUTCOMES: [(&str, PatchOf, &str); 14] = [
    (
        r#"[{"op":"remove","path":"/$metadata/$model"}]"#,
        PatchOf::Twin,
        "Protected 0",
    ),
    (
        r#"[{"op":"replace","path":"/$metadata/$model/x","value":1}]"#,
        PatchOf::Twin,
        "Protected 0",
    ),
    (
        r#"[{"op":"replace","path":"/$metadata/$model","value":1}]"#,
        PatchOf::Rel,
        "Protected 0",
    ),
    (
        r#"[{"op":"replace","path":"/$metadata/$model","value":1}]"#,
        PatchOf::Twin,
        "NoTarget 0",
    ),
    (
        r#"[{"op":"replace","path":"/$metadata/$model","value":1}]"#,
        PatchOf::Part,
        "Protected 0",
    ),
    (
        r#"[{"op":"add","path":"/b/$metadata","value":{}}]"#,
        PatchOf::Twin,
        r#"{"a":{"~/":0},"b":{"$metadata":{},"c":2,"d":1}}"#,
    ),
    ("[]", PatchOf::Model, "NotAMark 0"),
    (
        r#"[{"op":"remove","path":"/decommissioned"}]"#,
        PatchOf::Model,
        "NotAMark 0",
    ),
    (
        r#"[{"op":"add","path":"/decommissioned","value":1}]"#,
        PatchOf::Model,
        "NotAMark 0",
    ),
    (
        r#"[{"op":"add","path":"/decommissioned","value":true},{"op":"add","path":"/a"}]"#,
        PatchOf::Model,
        "MissingValue 1",
    ),
    (
        r#"[{"op":"replace","path":"/decommissioned","value":true}]"#,
        PatchOf::Model,
        "NoTarget 0",
    ),
    ("[]", PatchOf::Twin, r#"{"a":{"~/":0},"b":{"c":2,"d":1}}"#),
    (
        r#"[{"op":"remove","path":"/a/~0~1"},{"op":"add","path":"/b/a","value":{"y":1,"x":2}}]"#,
        PatchOf::Twin,
        r#"{"a":{},"b":{"a":{"x":2,"y":1},"c":2,"d":1}}"#,
    ),
    (
        r#"[{"op":"remove","path":"/a"},{"op":"replace","path":"/b/c","value":3},{"op":"remove","path":"/a"}]"#,
        PatchOf::Twin,
        "NoTarget 2",
    ),
];

/// The first patch of a twin that makes something else of its tree, or none.
fn first_wrong<'a>(alloc: Global, rows: &[(&str, &'a str, &str)]) -> Result<Option<&'a str>, Fail> {
    for (tree, patch, line) in rows {
        if !makes(alloc, tree, patch, PatchOf::Twin, line)? {
            return Ok(Some(patch));
        }
    }
    Ok(None)
}

/// The first patch that makes something else of one tree, or none.
fn first_misjudged<'a>(
    alloc: Global,
    rows: &[(&'a str, PatchOf, &str)],
) -> Result<Option<&'a str>, Fail> {
    let tree = r#"{"b":{"d":1,"c":2},"a":{"~/":0}}"#;
    for (patch, of, line) in rows {
        if !makes(alloc, tree, patch, *of, line)? {
            return Ok(Some(patch));
        }
    }
    Ok(None)
}

#[test]
fn applies_as_the_public_vectors_say(rt: HostRuntime) -> Result<(), Fail> {
    for rows in [EXAMPLES.as_slice(), VECTORS.as_slice(), FURTHER.as_slice()] {
        assert_eq!(rt; first_wrong(rt.alloc(), rows)?, None);
    }
    Ok(())
}

#[test]
fn names_the_least_fault(rt: HostRuntime) -> Result<(), Fail> {
    for rows in [FAULTS.as_slice(), OUTCOMES.as_slice()] {
        assert_eq!(rt; first_misjudged(rt.alloc(), rows)?, None);
    }
    Ok(())
}

/// Whether a patch with a path of so many parts is one.
fn is_patch(alloc: Global, parts: usize) -> Result<bool, Fail> {
    let mut text = String::from_str(alloc, r#"[{"op":"remove","path":""#)?;
    for _ in 0..parts {
        text.push_str("/a")?;
    }
    text.push_str(r#""}]"#)?;
    let patch = patch_of(alloc, text.as_str(), PatchOf::Twin)?;
    let is_patch = patch.is_ok();
    drop((text, patch));
    Ok(is_patch)
}

#[test]
fn bounds_the_parts_of_a_path(rt: HostRuntime) -> Result<(), Fail> {
    for (parts, fits) in [(64, true), (65, false)] {
        assert!(rt; is_patch(rt.alloc(), parts)? == fits, "{parts}");
    }
    Ok(())
}
