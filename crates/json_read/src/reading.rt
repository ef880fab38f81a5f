//! Reading a JSON text, by recursive descent.

ghost use Rattle.std.specs.Prelude.{◌≡◌, ◌≤◌, ◌⊎◌, ℕ, suc, List, [], ◌∷◌, length, Some, None, IfOk, slice_index};
ghost use Rattle.std.specs.Option.{option_map};
ghost use Rattle.json_tree.specs.Values.{Raw};
ghost use Rattle.json_tree.specs.View.{view};
ghost use Rattle.json_tree.specs.Grammar.{IsText};
ghost use Rattle.json_tree.specs.Places.{StandsAt};
ghost use Rattle.json_read.specs.Faults.{ReadsJson};
ghost use Rattle.json_tree.specs.Pointers.{IsPointerOf};
ghost use Rattle.json_read.specs.Machinery.Automaton.{Pairs, Frame, in_array, in_object, value, first_element, first_key, next_key, after, start, gives, reading};
ghost use Rattle.json_read.specs.Machinery.Leads.{Leads, IsHeldAs, IsRead};
ghost use Rattle.json_read.specs.Machinery.Ways.{IsFirstRange, first_way};
ghost use Rattle.json_read.specs.declared.fault.JsonFault.TheVariants as faults;

use crate::fault::JsonFault;
use crate::keys::first_duplicate;
use crate::places::{is_before, place_of};
use crate::scan::{byte_at, fault_at, number_end, spaces_end, word_end};
use crate::strings::text_of;
use dt_base::{List, OutOfMemory, Text};
use json_decimal::{Decimal, DecimalFault, one_number};
use json_tree::{Member, Place, Pointer, Tree, pointer_of};
use std::alloc::Global;

/// How deep arrays and objects may nest; the outermost counts as 1.
const MAX_DEPTH: usize = 64;

/// How many members an object has room for at first. Few objects have more, and those with fewer are to waste little.
const FIRST_MEMBERS: usize = 6;

/// The value that was read, and the position behind it. Where a number in it is out of range, zero stands for that,
/// and `range` has the way up from the first such one: its position in what it stands in, then that one's, and so on.
#[derive(Drop)]
struct Found {
    tree: Tree,
    range: Option<Vec<u64>>,
    at: usize,
}

fn found_at(tree: Tree, at: usize) -> Found
    ensures tree { result.tree ≡ tree }
    ensures range { result.range ≡ None }
    ensures at { result.at ≡ at }
{
    Found {
        tree,
        range: None,
        at,
    }
}

/// The value behind white space, in which arrays and objects nest at most `depth` deep.
#[cycle(value)]
#[inline(always)]
fn value_of(alloc: Global, bytes: &[u8], depth: usize, at: usize) -> Result<Found, JsonFault>
    requires { at ≤ length bytes.now }
    ensures forward { IfOk result (λ r. at ≤ r.at) }
    ensures within { IfOk result (λ r. r.at ≤ length bytes.now) }
    ensures read { (k : List Frame) → Leads bytes.now
        (λ r. IsRead bytes.now (after depth k) r.tree (option_map (λ v. v.items) r.range) r.at)
        result (reading bytes.now (value depth k) at) }
{
    let at = spaces_end(bytes, at);
    match byte_at(bytes, at) {
        b'"' => {
            let (text, end) = text_of(alloc, bytes, at + 1)?;
            Ok(found_at(Tree::Text(text), end))
        }
        b'[' => {
            if depth == 0 {
                return Err(fault_at(bytes, at));
            }
            array_of(alloc, bytes, depth - 1, at + 1)
        }
        b'{' => {
            if depth == 0 {
                return Err(fault_at(bytes, at));
            }
            object_of(alloc, bytes, depth - 1, at + 1)
        }
        b'n' => Ok(found_at(Tree::Null, word_end(bytes, at + 1, b"ull")?)),
        b't' => Ok(found_at(Tree::Bool(true), word_end(bytes, at + 1, b"rue")?)),
        b'f' => Ok(found_at(Tree::Bool(false), word_end(bytes, at + 1, b"alse")?)),
        b'-' | b'0'..=b'9' => number_of(alloc, bytes, at),
        _ => Err(fault_at(bytes, at)),
    }
}

/// The number whose first byte stands here.
fn number_of(alloc: Global, bytes: &[u8], at: usize) -> Result<Found, JsonFault>
    requires { (slice_index bytes.now at ≡ 45)
        ⊎ (48 ≤ slice_index bytes.now at) × (slice_index bytes.now at ≤ 57) }
    ensures forward { IfOk result (λ r. at ≤ r.at) }
    ensures within { IfOk result (λ r. r.at ≤ length bytes.now) }
    ensures read { (d : ℕ) (k : List Frame) → Leads bytes.now
        (λ r. IsRead bytes.now (after d k) r.tree (option_map (λ v. v.items) r.range) r.at)
        result (reading bytes.now (value d k) at) }
{
    let end = number_end(bytes, at)?;
    match Decimal::read(&bytes[at..end]) {
        Ok(decimal) => Ok(found_at(Tree::Number(decimal), end)),
        Err(DecimalFault::Range) => Ok(Found {
            tree: Tree::Number(Decimal {
                high: 0,
                low: 0,
                exponent: 0,
                negative: false,
            }),
            range: Some(Vec::new(alloc)),
            at: end,
        }),
        Err(DecimalFault::NotALiteral) => Err(fault_at(bytes, at)),
    }
}

/// The way up from a number, with one more step, unless there is one already.
#[inline(always)]
fn first_range(
    before: Option<Vec<u64>>,
    inner: Option<Vec<u64>>,
    position: usize,
) -> Result<Option<Vec<u64>>, OutOfMemory>
    ensures { IfOk result (λ up. option_map (λ v. v.items) up
        ≡ first_way (option_map (λ v. v.items) before) (option_map (λ v. v.items) inner) position) }
{
    match inner {
        Some(steps) => first_step(before, steps, position),
        None => Ok(before),
    }
}

/// The same where there is a way within the part.
fn first_step(
    before: Option<Vec<u64>>,
    inner: Vec<u64>,
    position: usize,
) -> Result<Option<Vec<u64>>, OutOfMemory>
    ensures { IfOk result (λ up. option_map (λ v. v.items) up
        ≡ first_way (option_map (λ v. v.items) before) (Some inner.items) position) }
{
    if before.is_some() {
        return Ok(before);
    }
    let mut steps = inner;
    steps.push(position as u64)?;
    Ok(Some(steps))
}

/// The array behind its opening bracket, with values that nest at most `depth` deep.
#[cycle(value)]
fn array_of(alloc: Global, bytes: &[u8], depth: usize, at: usize) -> Result<Found, JsonFault>
    requires { at ≤ length bytes.now }
    ensures forward { IfOk result (λ r. at ≤ r.at) }
    ensures within { IfOk result (λ r. r.at ≤ length bytes.now) }
    ensures read { (k : List Frame) → Leads bytes.now
        (λ r. IsRead bytes.now (after (suc depth) k) r.tree (option_map (λ v. v.items) r.range) r.at)
        result (reading bytes.now (first_element depth k) at) }
{
    let start = spaces_end(bytes, at);
    if byte_at(bytes, start) == b']' {
        return Ok(found_at(Tree::List(List::new(alloc)), start + 1));
    }
    elements_of(alloc, bytes, depth, start)
}

/// The array from its first element on, up to its closing bracket.
#[cycle(value)]
fn elements_of(alloc: Global, bytes: &[u8], depth: usize, at: usize) -> Result<Found, JsonFault>
    requires { at ≤ length bytes.now }
    ensures forward { IfOk result (λ r. at ≤ r.at) }
    ensures within { IfOk result (λ r. r.at ≤ length bytes.now) }
    ensures read { (k : List Frame) → Leads bytes.now
        (λ r. IsRead bytes.now (after (suc depth) k) r.tree (option_map (λ v. v.items) r.range) r.at)
        result (reading bytes.now (value depth (in_array [] ∷ k)) at) }
{
    let mut items = Vec::new(alloc);
    let mut range = None;
    let mut at = at;
    // Each round reads at least one byte.
    'elements: for position in 0..bytes.len() {
        let item = value_of(alloc, bytes, depth, at)?;
        range = first_range(range, item.range, position)?;
        items.push(item.tree)?;
        at = spaces_end(bytes, item.at);
        let mark = byte_at(bytes, at);
        if mark == b']' {
            return Ok(Found {
                tree: Tree::List(List::from_vec(items)),
                range,
                at: at + 1,
            });
        }
        if mark != b',' {
            return Err(fault_at(bytes, at));
        }
        at += 1;
    }
    Err(fault_at(bytes, at))
}

/// The object behind its opening brace, with values that nest at most `depth` deep.
#[cycle(value)]
fn object_of(alloc: Global, bytes: &[u8], depth: usize, at: usize) -> Result<Found, JsonFault>
    requires { at ≤ length bytes.now }
    ensures forward { IfOk result (λ r. at ≤ r.at) }
    ensures within { IfOk result (λ r. r.at ≤ length bytes.now) }
    ensures read { (k : List Frame) → Leads bytes.now
        (λ r. IsRead bytes.now (after (suc depth) k) r.tree (option_map (λ v. v.items) r.range) r.at)
        result (reading bytes.now (first_key depth k) at) }
{
    let start = spaces_end(bytes, at);
    if byte_at(bytes, start) == b'}' {
        return Ok(found_at(Tree::Members(List::new(alloc)), start + 1));
    }
    members_of(alloc, bytes, depth, start)
}

/// The object from its first member on, up to its closing brace.
#[cycle(value)]
fn members_of(alloc: Global, bytes: &[u8], depth: usize, at: usize) -> Result<Found, JsonFault>
    requires { at ≤ length bytes.now }
    ensures forward { IfOk result (λ r. at ≤ r.at) }
    ensures within { IfOk result (λ r. r.at ≤ length bytes.now) }
    ensures read { (k : List Frame) → Leads bytes.now
        (λ r. IsRead bytes.now (after (suc depth) k) r.tree (option_map (λ v. v.items) r.range) r.at)
        result (reading bytes.now (next_key depth k []) at) }
{
    let mut members = Vec::with_capacity(alloc, FIRST_MEMBERS)?;
    let mut range = None;
    let mut at = at;
    // Each round reads at least one byte.
    'members: for position in 0..bytes.len() {
        let (key, colon) = key_of(alloc, bytes, at)?;
        let value = value_of(alloc, bytes, depth, colon)?;
        range = first_range(range, value.range, position)?;
        members.push(Member {
            key,
            value: value.tree,
        })?;
        at = spaces_end(bytes, value.at);
        let mark = byte_at(bytes, at);
        if mark == b'}' {
            return Ok(Found {
                tree: Tree::Members(List::from_vec(members)),
                range,
                at: at + 1,
            });
        }
        if mark != b',' {
            return Err(fault_at(bytes, at));
        }
        at += 1;
    }
    Err(fault_at(bytes, at))
}

/// A key behind white space, and the position behind its colon.
fn key_of(alloc: Global, bytes: &[u8], at: usize) -> Result<(Text, usize), JsonFault>
    requires { at ≤ length bytes.now }
    ensures forward { IfOk result (λ p. at ≤ p.1) }
    ensures within { IfOk result (λ p. p.1 ≤ length bytes.now) }
    ensures read { (d : ℕ) (k : List Frame) (ms : Pairs) → Leads bytes.now
        (λ p o. o ≡ reading bytes.now (value d (in_object ms p.0 ∷ k)) p.1)
        result (reading bytes.now (next_key d k ms) at) }
{
    let start = spaces_end(bytes, at);
    if byte_at(bytes, start) != b'"' {
        return Err(fault_at(bytes, start));
    }
    let (key, end) = text_of(alloc, bytes, start + 1)?;
    let colon = spaces_end(bytes, end);
    if byte_at(bytes, colon) != b':' {
        return Err(fault_at(bytes, colon));
    }
    Ok((key, colon + 1))
}

/// The value of all the bytes.
fn whole(alloc: Global, bytes: &[u8]) -> Result<Found, JsonFault>
    ensures { Leads bytes.now
        (λ r o. (raw : Raw) × IsHeldAs raw (view r.tree)
        × IsFirstRange raw (option_map (λ v. v.items) r.range) × (o ≡ gives raw))
        result (reading bytes.now start 0) }
{
    let value = value_of(alloc, bytes, MAX_DEPTH, 0)?;
    let end = spaces_end(bytes, value.at);
    if end < bytes.len() {
        return Err(fault_at(bytes, end));
    }
    Ok(value)
}

/// The value of a JSON text (RFC 8259) in UTF-8. Arrays and objects nest at most 64 deep, numbers have at most 38
/// digits before the exponent mark and 3 behind it, and a surrogate stands only in an escaped pair.
///
/// `Byte` comes where a byte makes it impossible that a text follows, `Ends` where only the end does. Where the
/// bytes are a text, `Duplicate` and `Range` name the first place in preorder with such a fault, and `Duplicate`
/// wins at one place. `OutOfMemory` says nothing of the bytes.
pub fn read(alloc: Global, bytes: &[u8]) -> Result<Tree, JsonFault>
    // The bytes spell what is read and nothing else, or have this fault.
    ensures { ReadsJson bytes.now result }
{
    // A literal stands for one number, so the bytes spell one value.
    one_number();
    let Found { tree, range, at: _ } = whole(alloc, bytes)?;
    let duplicate = first_duplicate(alloc, &tree)?;
    match (place_of(duplicate), place_of(range)) {
        (None, None) => Ok(tree),
        (Some(place), None) => Err(JsonFault::Duplicate { place }),
        (None, Some(place)) => Err(JsonFault::Range { place }),
        (Some(place), Some(other)) => {
            if is_before(other.steps.as_slice(), place.steps.as_slice()) {
                Err(JsonFault::Range { place: other })
            } else {
                Err(JsonFault::Duplicate { place })
            }
        }
    }
}

/// Why a text was not read: for want of memory alone.
fn want_of_memory(fault: &JsonFault) -> OutOfMemory
    requires { fault.now ≡ faults.OutOfMemory }
{
    match fault {
        JsonFault::OutOfMemory => OutOfMemory,
        _ => unreachable!(),
    }
}

/// The pointer to a place in the value of a JSON text, as to that of a fault. The bytes are read again. Fails only for want
/// of memory.
pub fn pointer_in(alloc: Global, bytes: &[u8], place: &Place) -> Result<Pointer, OutOfMemory>
    requires { (raw : Raw) × IsText bytes.now raw × ((part : Raw) × StandsAt raw place.now.steps part) }
    ensures { IfOk result (λ pointer. (raw : Raw) × IsText bytes.now raw × IsPointerOf raw place.now.steps pointer.text) }
{
    match whole(alloc, bytes) {
        Ok(found) => pointer_of(alloc, &found.tree, place),
        Err(fault) => Err(want_of_memory(&fault)),
    }
}
