ghost use Rattle.std.specs.Prelude.{◌≡◌, ℕ, ◌+◌, ◌-◌, ◌<◌, ◌≤◌, List, [], ◌++◌, length, take, drop, slice_range, vec_len, IfOk, OnErr};
ghost use Rattle.std.specs.Io.KnownBytes.{Consumes, IsAtEnd, Keeps};
ghost use Rattle.dt_base.specs.Faults.{Rose};
ghost use Rattle.http_ends.specs.declared.buffer.Filled.{Filled};
ghost use Rattle.http_ends.specs.declared.buffer.Filled.TheVariants.{More, Ended, Failed};
ghost use Rattle.http_ends.specs.reading.Reads.{ReadsMore};

use dt_base::{OutOfMemory, Source};
use std::alloc::{AllocError, Global};
use std::marker::Model;

/// The room in bytes that a buffer has at first.
const FIRST_ROOM: usize = 32_768;

/// The most room in bytes that is added at once.
const MOST_STEP: usize = 1_048_576;

/// What a read gave.
#[derive(Clone, Copy, Debug, PartialEq, Eq, Hash)]
pub(crate) enum Filled {
    /// A byte at least.
    More,
    /// Nothing: the link has ended.
    Ended,
    /// Nothing: the read failed.
    Failed,
}

/// The bytes that were read from a link and not yet used.
///
/// Where a message is taken from its front, the bytes behind it stay in their place. They move to the front of the
/// room only where it is full, and then the room grows only where they fill it.
#[derive(Debug, Drop)]
pub struct Buffer {
    bytes: Vec<u8>,
    start: usize,
    end: usize,
}

impl Model for Buffer {
    ghost use Rattle.std.specs.Prelude.{ℕ, List, ◌<◌, ◌≤◌, slice_range, vec_len};
    ghost use Rattle.std.specs.Coded.{coded_list, coded_ℕ};

    ghost Value = { List ℕ };

    ghost coded = { coded_list coded_ℕ };

    ghost view = { λ b. slice_range b.bytes.items b.start b.end };

    ghost invariant = { λ b. (b.start ≤ b.end) × (b.end ≤ vec_len b.bytes) × (0 < vec_len b.bytes) };
}

/// Sees to it that there is room behind the bytes from `start` to `end`, and answers where they begin then.
fn make_room(bytes: &mut Vec<u8>, start: usize, end: usize) -> Result<usize, AllocError>
    requires ordered { start ≤ end }
    requires within { end ≤ vec_len bytes.old }
    requires some { 0 < vec_len bytes.old }
    ensures room { IfOk result (λ at. at + (end - start) < vec_len bytes.new) }
    ensures kept { IfOk result (λ at. slice_range bytes.new.items at (at + (end - start)) ≡ slice_range bytes.old.items start end) }
    ensures err { OnErr result (bytes.new.items ≡ bytes.old.items) }
{
    if start == end {
        return Ok(0);
    }
    if end < bytes.len() {
        return Ok(start);
    }
    if start > 0 {
        bytes.copy_within(start..end, 0);
        return Ok(0);
    }
    let step = bytes.len().clamp(FIRST_ROOM, MOST_STEP);
    let Some(room) = bytes.len().checked_add(step) else {
        return Err(AllocError);
    };
    bytes.resize(room, 0)?;
    Ok(0)
}

/// Reads once into the room behind the first `end` bytes.
fn read_behind<S: Source>(link: &mut S, room: &mut [u8], end: usize) -> (Filled, usize)
    requires { end < length room.old }
    ensures within { end + result.1 ≤ length room.new }
    ensures front { take end room.new ≡ take end room.old }
    ensures moved { Consumes (S.left link.old) (S.left link.new) (slice_range room.new end (end + result.1)) }
    ensures more { result.0 ≡ More → 0 < result.1 }
    ensures ended { result.0 ≡ Ended → (result.1 ≡ 0) × IsAtEnd (S.left link.new) }
    ensures failed { result.0 ≡ Failed → (result.1 ≡ 0) × Rose (S.faults link.old) (S.faults link.new) }
    ensures count { S.faults link.old ≤ S.faults link.new }
    ensures beside { S.aside link.new ≡ S.aside link.old }
{
    match link.read(&mut room[end..]) {
        Ok(0) => (Filled::Ended, 0),
        Ok(count) => (Filled::More, count),
        Err(_) => (Filled::Failed, 0),
    }
}

impl Buffer {
    /// A buffer without bytes, with its first room.
    pub fn new(alloc: Global) -> Result<Buffer, OutOfMemory>
        ensures { IfOk result (λ buffer. buffer ≡ []) }
    {
        let mut bytes = Vec::new(alloc);
        bytes.resize(FIRST_ROOM, 0)?;
        Ok(Buffer {
            bytes,
            start: 0,
            end: 0,
        })
    }

    /// The bytes.
    pub(crate) fn as_slice(&self) -> &[u8]
        ensures { result.now ≡ self.now }
    {
        &self.bytes[self.start..self.end]
    }

    /// How many bytes there are.
    pub(crate) fn len(&self) -> usize
        ensures { result ≡ length self.now }
    {
        self.end - self.start
    }

    /// Takes bytes from the front.
    pub(crate) fn consume(&mut self, count: usize)
        requires { count ≤ length self.old }
        ensures { self.new ≡ drop count self.old }
    {
        self.start += count;
    }

    /// Reads once from the link, and puts what comes at the end. After want of memory nothing was read.
    pub(crate) fn fill<S: Source>(&mut self, link: &mut S) -> Result<Filled, OutOfMemory>
        ensures read { ReadsMore S.left S.aside S.faults link.old link.new self.old self.new }
        ensures more { result ≡ Ok More → length self.old < length self.new }
        ensures ended { result ≡ Ok Ended → (self.new ≡ self.old) × IsAtEnd (S.left link.new) }
        ensures failed { result ≡ Ok Failed → (self.new ≡ self.old) × Rose (S.faults link.old) (S.faults link.new) }
        ensures err { OnErr result (self.new ≡ self.old) }
    {
        let start = make_room(&mut self.bytes, self.start, self.end)?;
        self.end = start + (self.end - self.start);
        self.start = start;
        let (filled, count) = read_behind(link, &mut self.bytes, self.end);
        self.end += count;
        Ok(filled)
    }
}
