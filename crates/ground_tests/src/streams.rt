//! Sources, sinks, links and shelves, in memory and over std.

use dt_base::{
    Failed, Fetched, File, FileShelf, List, MemLink, MemShelf, MemSink, MemSource, OutOfMemory,
    QuietShelf, QuietSink, QuietSource, ReadEnd, Shelf, ShelfEnd, Sink, Source, StdSink, StdSource,
    Text, read_all, write_all,
};
use std::alloc::Global;
use std::collections::BTreeMap;
use std::fs;
use std::io::Cursor;
use std::test::Fail;

const INPUT: &str = "one piece or many, the bytes are the same";

fn list_of<T: Copy>(alloc: Global, items: &[T]) -> Result<List<T>, OutOfMemory> {
    Ok(List {
        items: Vec::from_slice(alloc, items)?,
    })
}

/// A source of the input in pieces of this size, one of whose reads fails.
fn source_of(alloc: Global, piece: u64, failing: u64) -> Result<MemSource, OutOfMemory> {
    let pieces = List::from_vec(vec![in alloc; piece; 50]?);
    let failing = list_of(alloc, &[failing])?;
    let bytes = list_of(alloc, INPUT.as_bytes())?;
    Ok(MemSource::new(bytes, failing, pieces))
}

/// Whether the input is read whole in pieces of this size where one read fails, or why it is not.
fn is_read(
    alloc: Global,
    piece: u64,
    failing: u64,
    limit: usize,
) -> Result<Result<bool, ReadEnd>, OutOfMemory> {
    let mut source = source_of(alloc, piece, failing)?;
    let read = read_all(alloc, &mut source, limit);
    drop(source);
    Ok(read.map(|bytes| bytes.as_slice() == INPUT.as_bytes()))
}

/// The size of the pieces, the read that fails, the limit, and whether the input is read whole, or why it is not.
const READS: [(u64, u64, usize, Result<bool, ReadEnd>); 10] = [
    (1, 0, 41, Ok(true)),
    (2, 0, 41, Ok(true)),
    (3, 0, 41, Ok(true)),
    (7, 0, 41, Ok(true)),
    (0, 0, 41, Ok(true)),
    (20, 0, 41, Ok(true)),
    (20, 0, 40, Err(ReadEnd::TooLong)),
    (20, 1, 41, Err(ReadEnd::ReadFault)),
    (20, 3, 41, Err(ReadEnd::ReadFault)),
    (20, 9, 41, Ok(true)),
];

/// The position of the first row that is read in another way, or none.
fn first_misread(
    alloc: Global,
    rows: &[(u64, u64, usize, Result<bool, ReadEnd>)],
) -> Result<Option<usize>, OutOfMemory> {
    for (at, (piece, failing, limit, want)) in rows.iter().enumerate() {
        if is_read(alloc, *piece, *failing, *limit)? != *want {
            return Ok(Some(at));
        }
    }
    Ok(None)
}

#[test]
fn reads_whole_in_any_pieces_or_says_why_not(rt: HostRuntime) -> Result<(), Fail> {
    assert_eq!(rt; first_misread(rt.alloc(), &READS)?, None);
    Ok(())
}

/// Whether a sink of this room takes what there is room for, and tells whether that is all.
fn takes_what_fits(alloc: Global, room: usize) -> bool {
    let mut sink = MemSink::new(alloc, room as u64, List::new(alloc));
    let is_written = write_all(&mut sink, INPUT.as_bytes()).is_ok();
    let is_prefix = INPUT.as_bytes().get(..room) == Some(sink.taken());
    drop(sink);
    is_prefix && is_written == (room == 41)
}

#[test]
fn writes_a_prefix_before_a_fault(rt: HostRuntime) -> Result<(), Fail> {
    for room in 0..42 {
        assert!(rt; takes_what_fits(rt.alloc(), room), "{room}");
    }
    Ok(())
}

/// Whether a source over std's reader gives the input.
fn is_read_over_std(alloc: Global) -> bool {
    let read = read_all(
        alloc,
        &mut StdSource::new(Cursor::new(INPUT.as_bytes())),
        100,
    );
    let is_whole = match &read {
        Ok(bytes) => bytes.as_slice() == INPUT.as_bytes(),
        Err(_) => false,
    };
    drop(read);
    is_whole
}

/// Whether a sink over std's writer takes the input.
fn is_written_over_std(alloc: Global) -> bool {
    let mut written = Vec::new(alloc);
    let is_written = write_all(&mut StdSink::new(&mut written), INPUT.as_bytes()).is_ok();
    is_written && written.as_slice() == INPUT.as_bytes()
}

#[test]
fn adapters_pass_the_bytes_on(rt: HostRuntime) -> Result<(), Fail> {
    let alloc = rt.alloc();
    assert!(rt; is_read_over_std(alloc) && is_written_over_std(alloc));
    Ok(())
}

/// Whether a quiet source is at its end, a quiet sink takes all, and a quiet shelf has nothing.
fn are_quiet(alloc: Global) -> bool {
    let fetched = QuietShelf.fetch(alloc, "a", 10);
    let is_missing = matches!(&fetched, Ok(Fetched::Missing));
    drop(fetched);
    is_missing
        && QuietSource.read(&mut [0; 4]) == Ok(0)
        && write_all(&mut QuietSink, INPUT.as_bytes()).is_ok()
}

#[test]
fn quiet_objects_do_nothing(rt: HostRuntime) -> Result<(), Fail> {
    assert!(rt; are_quiet(rt.alloc()));
    Ok(())
}

/// A text that was made of a `String`.
fn moved_text(alloc: Global, row: &str) -> Result<Text, OutOfMemory> {
    Ok(Text::from_string(String::from_str(alloc, row)?))
}

/// Whether two texts are the same by each comparison.
fn are_the_same(one: &Text, other: &Text) -> bool {
    one == other && one.cmp(other).is_eq() && one.as_str() == other.as_str()
}

/// Whether a text and a copy of it are the same.
fn is_copied(alloc: Global, text: &Text) -> Result<bool, OutOfMemory> {
    let copy = text.copy(alloc)?;
    Ok(are_the_same(text, &copy))
}

/// Whether the texts of these bytes are the same wherever they lie, and a copy is.
fn lie_alike(alloc: Global, row: &str) -> Result<bool, OutOfMemory> {
    let made = Text::from_str(alloc, row)?;
    let moved = moved_text(alloc, row)?;
    let are_the_same = are_the_same(&made, &moved);
    let is_copied = is_copied(alloc, &made);
    drop((made, moved));
    Ok(is_copied? && are_the_same)
}

/// Whether a text is turned into a `String` of these bytes.
fn gives_back(alloc: Global, text: Text, row: &str) -> Result<bool, OutOfMemory> {
    let string = text.into_string(alloc)?;
    Ok(string.as_str() == row)
}

/// Whether the texts of these bytes are the same wherever they lie, and are turned into a `String` of them.
fn are_alike(alloc: Global, row: &str) -> Result<bool, OutOfMemory> {
    let is_given_back = gives_back(alloc, Text::from_str(alloc, row)?, row)?
        && gives_back(alloc, moved_text(alloc, row)?, row)?;
    Ok(is_given_back && lie_alike(alloc, row)?)
}

/// Texts about as long as what lies in place.
const TEXTS: [&str; 8] = [
    "",
    "é",
    "dtmi:x;1",
    "29 bytes, that is one too few",
    "30 bytes, the most with an é.",
    "30 bytes, for which is room en",
    "31 bytes, one more than fits in",
    "31 bytes, which ends with an é",
];

/// The first text that is not the same wherever it lies, or none.
fn first_unlike<'a>(alloc: Global, rows: &[&'a str]) -> Result<Option<&'a str>, OutOfMemory> {
    for row in rows {
        if !are_alike(alloc, row)? {
            return Ok(Some(row));
        }
    }
    Ok(None)
}

#[test]
fn texts_are_the_same_wherever_they_lie(rt: HostRuntime) -> Result<(), Fail> {
    assert_eq!(rt; first_unlike(rt.alloc(), &TEXTS)?, None);
    Ok(())
}

/// Adds the lengths of names under them.
fn add_sizes(alloc: Global, sizes: &mut BTreeMap<Text, u64>) -> Result<(), Fail> {
    for name in ["b", "", "é", "ab", "a", "B"] {
        let key = Text::from_str(alloc, name)?;
        sizes.insert(key, name.len() as u64)?;
    }
    Ok(())
}

/// The keys of a map in their order, a space behind each.
fn keys_of(alloc: Global, sizes: &BTreeMap<Text, u64>) -> Result<String, OutOfMemory> {
    let mut names = String::new(alloc);
    for name in sizes.keys() {
        names.push_str(name.as_str())?;
        names.push(' ')?;
    }
    Ok(names)
}

/// The size under a name.
fn size_of(
    alloc: Global,
    sizes: &BTreeMap<Text, u64>,
    name: &str,
) -> Result<Option<u64>, OutOfMemory> {
    let key = Text::from_str(alloc, name)?;
    Ok(sizes.get(&key).copied())
}

/// Whether a map has its keys in the order of their bytes, and finds them.
fn is_keyed(alloc: Global, sizes: &mut BTreeMap<Text, u64>) -> Result<bool, Fail> {
    add_sizes(alloc, sizes)?;
    let names = keys_of(alloc, sizes)?;
    Ok(names.as_str() == " B a ab b é " && size_of(alloc, sizes, "é")? == Some(2))
}

#[test]
fn texts_key_maps_by_their_bytes(rt: HostRuntime) -> Result<(), Fail> {
    let mut sizes = BTreeMap::new(rt.alloc());
    let is_keyed = is_keyed(rt.alloc(), &mut sizes);
    drop(sizes);
    assert!(rt; is_keyed?);
    Ok(())
}

/// A link that gives three bytes of a request at first, has room for five, and whose second and fourth call fail.
fn link(alloc: Global) -> Result<MemLink, OutOfMemory> {
    let bytes = list_of(alloc, b"request")?;
    let failing = list_of(alloc, &[2, 4])?;
    let pieces = list_of(alloc, &[3])?;
    MemLink::new(alloc, bytes, 5, failing, pieces)
}

/// What seven calls answer, and what was read last.
fn answers(link: &mut MemLink) -> ([Result<usize, Failed>; 7], [u8; 8]) {
    let mut into = [0; 8];
    let answers = [
        link.read(&mut into),
        link.write(b"reply"),
        link.write(b"rep"),
        link.read(&mut into),
        link.write(b"ly!"),
        link.write(b"!"),
        link.read(&mut into),
    ];
    (answers, into)
}

/// Whether a link fails at the calls that it should, and passes the bytes on at the others.
fn counts_calls(link: &mut MemLink) -> bool {
    let (answers, into) = answers(link);
    let failed = Err(Failed);
    let wanted = [Ok(3), failed, Ok(3), failed, Ok(2), failed, Ok(4)];
    answers == wanted && into == *b"uest\0\0\0\0" && link.taken() == b"reply".as_slice()
}

#[test]
fn a_link_counts_its_calls_together(rt: HostRuntime) -> Result<(), Fail> {
    let mut link = link(rt.alloc())?;
    let counts_calls = counts_calls(&mut link);
    drop(link);
    assert!(rt; counts_calls);
    Ok(())
}

fn file(alloc: Global, name: &str, bytes: &str) -> Result<File, OutOfMemory> {
    let bytes = list_of(alloc, bytes.as_bytes())?;
    let name = Text::from_str(alloc, name)?;
    Ok(File { name, bytes })
}

/// What a fetch answered, as a word or as the bytes.
fn told(answer: &Result<Fetched, ShelfEnd>) -> &str {
    match answer {
        Ok(Fetched::Missing) => "missing",
        Ok(Fetched::TooLong) => "too long",
        Ok(Fetched::Bytes(bytes)) => std::str::from_utf8(bytes.as_slice()).unwrap_or("no text"),
        Err(ShelfEnd::Failed) => "failed",
        Err(ShelfEnd::OutOfMemory) => "out of memory",
    }
}

/// Whether a fetch answers so.
fn gives(alloc: Global, shelf: &mut impl Shelf, name: &str, limit: usize, want: &str) -> bool {
    let answer = shelf.fetch(alloc, name, limit);
    let is_so = told(&answer) == want;
    drop(answer);
    is_so
}

/// The name of the first fetch that is not answered as it should be, or none.
fn first_wrong<'a>(
    alloc: Global,
    shelf: &mut impl Shelf,
    fetches: &[(&'a str, usize, &str)],
) -> Option<&'a str> {
    for (name, limit, want) in fetches {
        if !gives(alloc, shelf, name, *limit, want) {
            return Some(name);
        }
    }
    None
}

/// The names and bytes of the files in memory.
const FILES: [(&str, &str); 3] = [("a", "first"), ("b", ""), ("a", "second")];

/// A shelf of three files, two of one name, of which the third fetch fails.
fn shelf(alloc: Global) -> Result<MemShelf, OutOfMemory> {
    let mut files = List::new(alloc);
    for (name, bytes) in FILES {
        files.push(file(alloc, name, bytes)?)?;
    }
    Ok(MemShelf::new(files, list_of(alloc, &[3])?))
}

/// Names, limits, and what is fetched, which a shelf in memory gives in this order.
const FETCHES: [(&str, usize, &str); 5] = [
    ("a", 5, "first"),
    ("a", 4, "too long"),
    ("a", 5, "failed"),
    ("b", 0, ""),
    ("c", 9, "missing"),
];

#[test]
fn a_shelf_in_memory_gives_its_files(rt: HostRuntime) -> Result<(), Fail> {
    let mut shelf = shelf(rt.alloc())?;
    let wrong = first_wrong(rt.alloc(), &mut shelf, &FETCHES);
    drop(shelf);
    assert_eq!(rt; wrong, None);
    Ok(())
}

/// The same of real files.
const FILE_FETCHES: [(&str, usize, &str); 7] = [
    ("twelve.txt", 12, "twelve bytes"),
    ("twelve.txt", 11, "too long"),
    ("twelve.txt", 0, "too long"),
    ("thirteen.txt", 12, "missing"),
    ("none/twelve.txt", 12, "missing"),
    (".", 12, "failed"),
    ("twelve.txt/part", 12, "failed"),
];

#[test]
fn a_shelf_of_real_files_gives_them(rt: HostRuntime) -> Result<(), Fail> {
    fs::write(&rt, "twelve.txt", "twelve bytes")?;
    let wrong = first_wrong(rt.alloc(), &mut FileShelf::new(&rt), &FILE_FETCHES);
    fs::remove_file(&rt, "twelve.txt")?;
    assert_eq!(rt; wrong, None);
    Ok(())
}
