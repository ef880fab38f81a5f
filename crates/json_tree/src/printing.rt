//! Printing a tree as a JSON text.

ghost use Rattle.std.specs.Prelude.{◌≡◌, ◌<◌, ◌≤◌, ◌++◌, string_bytes, length, get_or, IsTrue, IsFalse, IfOk, OnOk};
ghost use Rattle.std.specs.List.{slice_range, AllByRecursion};
ghost use Rattle.json_tree.specs.Grammar.{Spells};
ghost use Rattle.json_tree.specs.Printing.{hex_digit, code_escape, escaped_byte, escaped, quoted, printed, printed_elements, printed_members, NestsWithin};
ghost use Rattle.json_tree.specs.Machinery.Pieces.{IsPlain, IsEscaped, comma_before, IsOfTree, AreOfTrees, MembersAreOfTrees};
ghost use Rattle.std.specs.Str.{IsUtf8};
ghost use Rattle.json_decimal.specs.Decimals.{number_of};
ghost use Rattle.json_decimal.specs.Printing.{text_of};
ghost use Rattle.json_tree.specs.Values.{number, HasDistinctKeys};
ghost use Rattle.json_tree.specs.View.{view, elements_view, members_view};

use crate::laws::of_number;
use crate::tree::{Member, Tree};
use dt_base::{OutOfMemory, Text};
use json_decimal::Decimal;
use std::alloc::{AllocError, Global};

/// The room in bytes that is reserved at the start.
const FIRST_ROOM: usize = 256;

/// A byte that is printed as it is.
fn is_plain(byte: u8) -> bool
    ensures plain { IsTrue result → IsPlain byte }
    ensures other { IsFalse result → IsEscaped byte }
{
    32 <= byte && byte != b'"' && byte != b'\\'
}

/// Behind the bytes that are printed as they are.
fn plain_end(bytes: &[u8], at: usize) -> usize
    requires { at ≤ length bytes.now }
    ensures forward { at ≤ result }
    ensures within { result ≤ length bytes.now }
    ensures plain { AllByRecursion IsPlain (slice_range bytes.now at result) }
    ensures next { result < length bytes.now → IsEscaped (get_or bytes.now result 0) }
{
    let mut end = at;
    'plain: while end < bytes.len() && is_plain(bytes[end]) {
        end += 1;
    }
    end
}

/// A hexadecimal digit, in lower case.
fn hex_digit(value: u8) -> char
    requires { value < 16 }
    ensures { result ≡ hex_digit value }
{
    if value < 10 {
        (b'0' + value) as char
    } else {
        (b'a' + (value - 10)) as char
    }
}

/// Appends a control character by its code.
fn push_code(out: &mut String, byte: u8) -> Result<(), AllocError>
    requires { byte < 32 }
    ensures { OnOk result (string_bytes out.new ≡ string_bytes out.old ++ code_escape byte) }
{
    out.push_str("\\u00")?;
    out.push(hex_digit(byte / 16))?;
    out.push(hex_digit(byte % 16))
}

/// Appends a byte that is not printed as it is.
fn push_escape(out: &mut String, byte: u8) -> Result<(), AllocError>
    requires { IsEscaped byte }
    ensures { OnOk result (string_bytes out.new ≡ string_bytes out.old ++ escaped_byte byte) }
{
    match byte {
        b'"' => out.push_str("\\\""),
        b'\\' => out.push_str("\\\\"),
        8 => out.push_str("\\b"),
        9 => out.push_str("\\t"),
        10 => out.push_str("\\n"),
        12 => out.push_str("\\f"),
        13 => out.push_str("\\r"),
        _ => push_code(out, byte),
    }
}

/// Appends the characters of a text.
fn push_escaped(out: &mut String, text: &str) -> Result<(), AllocError>
    ensures { OnOk result (string_bytes out.new ≡ string_bytes out.old ++ escaped text.now) }
{
    let bytes = text.as_bytes();
    let mut at = 0;
    'runs: while at < bytes.len() {
        let end = plain_end(bytes, at);
        out.push_str(&text[at..end])?;
        if end == bytes.len() {
            return Ok(());
        }
        push_escape(out, bytes[end])?;
        at = end + 1;
    }
    Ok(())
}

/// Appends a text between quotation marks, as `print` does. Fails only for want of memory.
pub fn push_quoted(out: &mut String, text: &str) -> Result<(), AllocError>
    ensures printed { OnOk result (string_bytes out.new ≡ string_bytes out.old ++ quoted text.now) }
    ensures utf8 { IsUtf8 text.now }
{
    out.push('"')?;
    push_escaped(out, text)?;
    out.push('"')
}

fn push_number(out: &mut String, decimal: &Decimal) -> Result<(), AllocError>
    ensures printed { OnOk result (string_bytes out.new ≡ string_bytes out.old ++ text_of (number_of decimal.now)) }
    ensures of_tree { IsOfTree (number (number_of decimal.now)) }
{
    of_number(decimal);
    decimal.push(out)
}

/// Appends a comma, unless this is the first position.
fn push_comma(out: &mut String, position: usize) -> Result<(), AllocError>
    ensures { OnOk result (string_bytes out.new ≡ string_bytes out.old ++ comma_before position) }
{
    if position > 0 {
        out.push(',')?;
    }
    Ok(())
}

/// Appends a value, of which its texts and numbers then say that they are those of a tree.
#[cycle(prints)]
fn push_value(out: &mut String, tree: &Tree) -> Result<(), AllocError>
    ensures printed { OnOk result (string_bytes out.new ≡ string_bytes out.old ++ printed (view tree.now)) }
    ensures of_tree { OnOk result (IsOfTree (view tree.now)) }
{
    match tree {
        Tree::Null => out.push_str("null"),
        Tree::Bool(true) => out.push_str("true"),
        Tree::Bool(false) => out.push_str("false"),
        Tree::Number(decimal) => push_number(out, decimal),
        Tree::Text(text) => push_quoted(out, text.as_str()),
        Tree::List(items) => {
            out.push('[')?;
            push_elements(out, items.as_slice())
        }
        Tree::Members(members) => {
            out.push('{')?;
            push_members(out, members.as_slice())
        }
    }
}

/// Appends elements and the closing bracket.
#[cycle(prints)]
fn push_elements(out: &mut String, items: &[Tree]) -> Result<(), AllocError>
    ensures printed { OnOk result (string_bytes out.new ≡ string_bytes out.old ++ printed_elements (elements_view items.now)) }
    ensures of_tree { OnOk result (AreOfTrees (elements_view items.now)) }
{
    for (position, item) in items.iter().enumerate() {
        push_comma(out, position)?;
        push_value(out, item)?;
    }
    out.push(']')
}

/// Appends members and the closing brace.
#[cycle(prints)]
fn push_members(out: &mut String, members: &[Member]) -> Result<(), AllocError>
    ensures printed { OnOk result (string_bytes out.new ≡ string_bytes out.old ++ printed_members (members_view members.now)) }
    ensures of_tree { OnOk result (MembersAreOfTrees (members_view members.now)) }
{
    for (position, member) in members.iter().enumerate() {
        push_comma(out, position)?;
        push_quoted(out, member.key.as_str())?;
        out.push(':')?;
        push_value(out, &member.value)?;
    }
    out.push('}')
}

/// The text of a tree without white space, with the members in the order of the tree. In texts `"` and `\` stand
/// behind a backslash, the controls of RFC 8259, section 7, that have a short escape are `\b`, `\f`, `\n`, `\r` and
/// `\t`, the other ones below 32 are `\u00` and two hexadecimal digits in lower case, and every other byte stands as
/// it is. Numbers are printed as `Decimal::print` does. Which of the texts of a tree is given is this project's own.
///
/// Fails only for want of memory. The call goes down as deep as the tree nests.
#[tactic(auto, using(crate::proofs::Printable::print_spells))]
pub fn print(alloc: Global, tree: &Tree) -> Result<Text, OutOfMemory>
    ensures text { IfOk result (λ t. t ≡ printed (view tree.now)) }
    // The text reads back, unless it nests too deep or a key stands twice in an object.
    ensures spells { NestsWithin 64 (view tree.now) → HasDistinctKeys (view tree.now)
        → IfOk result (λ t. Spells t (view tree.now)) }
{
    let mut out = String::with_capacity(alloc, FIRST_ROOM)?;
    push_value(&mut out, tree)?;
    Ok(Text::from_string(out))
}
