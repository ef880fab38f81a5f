//! The walk over the bytes of a name or a DTMI.

ghost use Rattle.std.specs.Prelude.{◌≡◌, ◌≤◌, length, nat_le, IsTrue, Some};
ghost use Rattle.dt_base.specs.names.Machinery.Walking.{when, inside_name, step, need, ends, version_of, within, WalkTells};

/// Where a reader stands in a text, behind the bytes that it has read.
#[derive(Clone, Copy)]
pub(crate) enum State {
    /// At the first byte of a name.
    NameStart,
    /// Behind a letter or digit of a name, which may end here.
    NameWord,
    /// Behind an underscore of a name.
    NameUnderscore,
    /// At each byte of `dtmi:`.
    WantD,
    WantT,
    WantM,
    WantI,
    WantColon,
    /// At the first byte of a segment.
    SegmentStart,
    /// Behind a letter or digit of a segment, which may end here.
    SegmentWord,
    /// Behind an underscore of a segment.
    SegmentUnderscore,
    /// Behind the `;`.
    VersionStart,
    /// Behind digits of the version, which have this value.
    Version(u32),
}

/// How a walk went.
#[derive(Clone, Copy)]
pub(crate) enum Outcome {
    /// All bytes were read, up to this state.
    Whole(State),
    /// The byte at `at` is the first that can stand in no text; `state` is the one before it.
    Wrong { at: usize, state: State },
}

/// A ninth digit may follow a number below this, and a tenth none.
const FULL: u32 = 100_000_000;

/// No state needs more bytes than the first of a DTMI.
const MOST_NEEDED: usize = 8;

fn inside(byte: u8, word: State, underscore: State) -> Option<State>
    ensures { result ≡ inside_name byte word underscore }
{
    if byte.is_ascii_alphanumeric() {
        Some(word)
    } else {
        when(byte == b'_', underscore)
    }
}

fn when(holds: bool, state: State) -> Option<State>
    ensures { result ≡ when holds state }
{
    if holds { Some(state) } else { None }
}

fn digit(number: u32, byte: u8) -> Option<State>
    ensures { result ≡ step (State.Version number) byte }
{
    if byte.is_ascii_digit() && number < FULL {
        Some(State::Version(number * 10 + u32::from(byte - b'0')))
    } else {
        None
    }
}

/// Whether the byte is a letter or digit that leaves the state as it is. Most bytes are, and this is told without a look at
/// each state.
fn stays(state: State, byte: u8) -> bool
    ensures { IsTrue result → step state byte ≡ Some state }
{
    match state {
        State::NameWord | State::SegmentWord => byte.is_ascii_alphanumeric(),
        _ => false,
    }
}

/// The state behind one more byte, where a text may go on with it.
fn step(state: State, byte: u8) -> Option<State>
    ensures { result ≡ step state byte }
{
    if stays(state, byte) {
        return Some(state);
    }
    match state {
        State::NameStart => when(byte.is_ascii_alphabetic(), State::NameWord),
        State::NameWord => inside(byte, State::NameWord, State::NameUnderscore),
        State::NameUnderscore => inside(byte, State::NameWord, State::NameUnderscore),
        State::WantD => when(byte == b'd', State::WantT),
        State::WantT => when(byte == b't', State::WantM),
        State::WantM => when(byte == b'm', State::WantI),
        State::WantI => when(byte == b'i', State::WantColon),
        State::WantColon => when(byte == b':', State::SegmentStart),
        State::SegmentStart => when(byte.is_ascii_alphabetic(), State::SegmentWord),
        State::SegmentWord => behind_word(byte),
        State::SegmentUnderscore => inside(byte, State::SegmentWord, State::SegmentUnderscore),
        State::VersionStart => first_digit(byte),
        State::Version(number) => digit(number, byte),
    }
}

fn behind_word(byte: u8) -> Option<State>
    ensures { result ≡ step State.SegmentWord byte }
{
    if byte == b':' {
        return Some(State::SegmentStart);
    }
    if byte == b';' {
        return Some(State::VersionStart);
    }
    inside(byte, State::SegmentWord, State::SegmentUnderscore)
}

fn first_digit(byte: u8) -> Option<State>
    ensures { result ≡ step State.VersionStart byte }
{
    if b'1' <= byte && byte <= b'9' {
        Some(State::Version(u32::from(byte - b'0')))
    } else {
        None
    }
}

/// How many bytes a text needs at least from here on.
fn need(state: State) -> usize
    ensures { result ≡ need state }
{
    match state {
        State::NameStart | State::NameUnderscore | State::VersionStart => 1,
        State::NameWord | State::Version(_) => 0,
        State::WantD => 8,
        State::WantT => 7,
        State::WantM => 6,
        State::WantI => 5,
        State::WantColon => 4,
        State::SegmentStart | State::SegmentUnderscore => 3,
        State::SegmentWord => 2,
    }
}

/// Whether a text may end here.
pub(crate) fn ends(state: State) -> bool
    ensures { result ≡ ends state }
{
    need(state) == 0
}

/// The version that a whole DTMI has, where the state is behind one.
pub(crate) fn version_of(state: State) -> Option<u32>
    ensures { result ≡ version_of state }
{
    match state {
        State::Version(version) => Some(version),
        _ => None,
    }
}

/// Whether a text may end within `room` bytes more. Far from the bound it may from every state.
fn fits(state: State, room: usize) -> bool
    ensures { result ≡ nat_le (need state) room }
{
    if room >= MOST_NEEDED {
        return true;
    }
    need(state) <= room
}

/// The state behind one more byte, where a text may go on with it and ends within `room` bytes more.
fn step_within(state: State, byte: u8, room: usize) -> Option<State>
    ensures { result ≡ within room (step state byte) }
{
    match step(state, byte) {
        Some(next) => when(fits(next, room), next),
        None => None,
    }
}

/// Walks from `start` over the bytes of a text that may have `bound` bytes.
pub(crate) fn walk(start: State, bound: usize, bytes: &[u8]) -> Outcome
    requires room { length bytes.now ≤ bound }
    requires start_fits { need start ≤ bound }
    ensures { WalkTells start bound bytes.now result }
{
    let mut state = start;
    for (at, byte) in bytes.iter().enumerate() {
        match step_within(state, *byte, bound - at - 1) {
            Some(next) => state = next,
            None => return Outcome::Wrong { at, state },
        }
    }
    Outcome::Whole(state)
}
