//! The names of contents by numbers.

ghost use Rattle.std.specs.Prelude.{◌≡◌, ◌<◌, ◌↔◌, length, map, IfOk, OnOk, IsTrue};
ghost use Rattle.extend_resolve.specs.Machinery.Names.{IsNaming, first_bytes, all_contents, AreEntries, AddsEntries, AreOrdered, HoldNumbers, Repeats, rows_of};

use dt_base::{List, OutOfMemory};
use dtdl_terms::Interface;
use std::alloc::Global;

/// What is sorted of a content: the first bytes of its name, its name, and its place in the list of all contents.
///
/// The first bytes stand in the entry itself, so a comparison seldom looks at the text of a name, which lies elsewhere.
type Entry<'a> = (u64, &'a str, usize);

/// The names of the contents of interfaces, equal names by one number.
#[derive(Drop)]
pub struct Names {
    /// The numbers of the names that each interface declares.
    pub declared: Vec<List<usize>>,
    /// What each number is below.
    pub bound: usize,
}

impl Names {
    /// The names of the contents of these interfaces. Fails only for want of memory.
    pub fn new(alloc: Global, nodes: &[&Interface]) -> Result<Names, OutOfMemory>
        ensures { IfOk result (λ names. IsNaming (map (λ n. n.now) nodes.now) names.declared.items names.bound) }
    {
        let mut entries = entries_of(alloc, nodes)?;
        entries.as_mut_slice().sort_unstable();
        let bound = entries.len();
        let mut numbers = vec![in alloc; 0; bound]?;
        number_all(numbers.as_mut_slice(), entries.as_slice());
        let declared = rows_of(alloc, nodes, numbers.as_slice())?;
        Ok(Names { declared, bound })
    }
}

/// The entries of all contents in their order.
fn entries_of<'a>(alloc: Global, nodes: &[&'a Interface]) -> Result<Vec<Entry<'a>>, OutOfMemory>
    ensures { IfOk result (λ entries. AreEntries (all_contents nodes.now) entries.items) }
{
    let mut entries = Vec::with_capacity(alloc, content_count(nodes))?;
    'nodes: for node in nodes {
        add_entries(&mut entries, node)?;
    }
    Ok(entries)
}

/// How many contents there are, for the room that their entries take.
fn content_count(nodes: &[&Interface]) -> usize {
    let mut count = 0usize;
    'nodes: for node in nodes {
        count = count.saturating_add(node.contents.len());
    }
    count
}

/// Adds the entries of an interface's contents.
fn add_entries<'a>(entries: &mut Vec<Entry<'a>>, node: &'a Interface) -> Result<(), OutOfMemory>
    ensures { OnOk result (AddsEntries entries.old.items entries.new.items node.now.contents) }
{
    'contents: for content in node.contents.as_slice() {
        let name = content.name.as_str();
        let place = entries.len();
        entries.push((first_bytes(name), name, place))?;
    }
    Ok(())
}

/// Writes the number of each entry's name to the entry's place. It is the place of the first entry that has the name.
fn number_all(numbers: &mut [usize], entries: &[Entry<'_>])
    requires { AreOrdered entries.now (length numbers.old) }
    ensures { HoldNumbers entries.now (length entries.now) numbers.new }
{
    let mut number = 0;
    'entries: for index in 0..entries.len() {
        let place = entries[index].2;
        if !repeats(entries, index) {
            number = place;
        }
        numbers[place] = number;
    }
}

/// Whether the entry at an index has the name of the one before it.
fn repeats(entries: &[Entry<'_>], index: usize) -> bool
    requires index { index < length entries.now }
    ensures { IsTrue result ↔ Repeats entries.now index }
{
    if index == 0 {
        return false;
    }
    let (before_first, before, _) = entries[index - 1];
    let (first, name, _) = entries[index];
    before_first == first && before == name
}

/// The numbers of each interface's contents, out of those of all contents.
fn rows_of(
    alloc: Global,
    nodes: &[&Interface],
    numbers: &[usize],
) -> Result<Vec<List<usize>>, OutOfMemory>
    requires { length numbers.now ≡ length (all_contents nodes.now) }
    ensures { IfOk result (λ rows. rows.items ≡ rows_of nodes.now numbers.now) }
{
    let mut rows = Vec::with_capacity(alloc, nodes.len())?;
    let mut left = numbers;
    'nodes: for node in nodes {
        let (row, rest) = left.split_at(node.contents.len());
        rows.push(List::from_vec(row.to_vec(alloc)?))?;
        left = rest;
    }
    Ok(rows)
}

/// The first eight bytes of a name, or all where it is shorter, as one number.
fn first_bytes(name: &str) -> u64
    ensures { result ≡ first_bytes name.now }
{
    let bytes = name.as_bytes();
    let mut number = 0;
    'bytes: for byte in &bytes[..bytes.len().min(8)] {
        number = (number << 8) | u64::from(*byte);
    }
    number
}
