ghost use Rattle.std.specs.Prelude.{◌≡◌, ℕ, ◌<◌, ◌≤◌, ◌≢◌, ◌+◌, ◌-◌, List, ◌++◌, length, take, drop, IfOk, OnOk, OnErr, IfSome, IsOk, vec_len};
ghost use Rattle.std.specs.Io.KnownBytes.{Consumes, IsAtEnd, Keeps};
ghost use Rattle.dt_base.specs.Faults.{Rose};
ghost use Rattle.dt_base.specs.declared.reads.ReadEnd.TheVariants.{ReadFault, TooLong};

use crate::{Failed, List, Source};
use std::alloc::{AllocError, Global};
use thiserror::Error;

/// Why a source was not read whole.
#[derive(Clone, Copy, Debug, PartialEq, Eq, Hash, Error)]
pub enum ReadEnd {
    /// A read failed. The source's count of faults rose.
    #[error("the read failed")]
    ReadFault,
    /// More bytes than the limit were left.
    #[error("more bytes than the limit")]
    TooLong,
    /// There was no memory for the bytes.
    #[error("out of memory")]
    OutOfMemory,
}

impl From<AllocError> for ReadEnd {
    ghost use Rattle.dt_base.specs.declared.reads.ReadEnd.TheVariants.{OutOfMemory};

    ghost from_gives = { λ _ e. e ≡ OutOfMemory };

    fn from(_error: AllocError) -> ReadEnd {
        ReadEnd::OutOfMemory
    }
}

impl From<Failed> for ReadEnd {
    ghost from_gives = { λ _ e. e ≡ ReadFault };

    fn from(_error: Failed) -> ReadEnd {
        ReadEnd::ReadFault
    }
}

/// The room in bytes that the first read has.
const FIRST_ROOM: usize = 65536;

/// Sees to it that there is room behind the first `filled` bytes: where there is none the room doubles,
/// within one byte more than the limit.
fn make_room(buffer: &mut Vec<u8>, filled: usize, limit: usize) -> Result<(), AllocError>
    requires filled { filled ≤ vec_len buffer.old }
    requires below { filled ≤ limit }
    requires within { vec_len buffer.old ≤ limit + 1 }
    ensures front { OnOk result (take filled buffer.new.items ≡ take filled buffer.old.items) }
    ensures room { OnOk result (filled < vec_len buffer.new) }
    ensures within { OnOk result (vec_len buffer.new ≤ limit + 1) }
{
    if filled < buffer.len() {
        return Ok(());
    }
    let doubled = buffer.len().saturating_mul(2).max(FIRST_ROOM);
    let most = limit.saturating_add(1);
    buffer.resize(doubled.min(most), 0)
}

/// Reads once into the room behind the first `filled` bytes.
fn fill<S: Source>(source: &mut S, buffer: &mut [u8], filled: usize) -> Result<usize, Failed>
    requires { filled < length buffer.old }
    ensures within { IfOk result (λ n. filled + n ≤ length buffer.old) }
    ensures front { take filled buffer.new ≡ take filled buffer.old }
    ensures moved { IfOk result (λ n. Consumes (S.left source.old) (S.left source.new) (take n (drop filled buffer.new))) }
    ensures end { IfOk result (λ n. n ≡ 0 → IsAtEnd (S.left source.new)) }
    ensures failed { OnErr result (Keeps (S.left source.old) (S.left source.new)) }
    ensures cause { OnErr result (Rose (S.faults source.old) (S.faults source.new)) }
    ensures count { S.faults source.old ≤ S.faults source.new }
    ensures beside { S.aside source.new ≡ S.aside source.old }
{
    source.read(&mut buffer[filled..])
}

/// Reads all that a source has left, at most `limit` bytes.
///
/// `TooLong` comes exactly where more than `limit` bytes are left, and `ReadFault` only where the count of
/// faults rose. Each turn takes a byte at least, so the call returns after at most `limit` + 2 reads. After
/// an error the source has lost some of the bytes at its front.
pub fn read_all<S: Source>(alloc: Global, source: &mut S, limit: usize) -> Result<List<u8>, ReadEnd>
    ensures whole { IfOk result (λ bytes. Consumes (S.left source.old) (S.left source.new) bytes) }
    ensures end { OnOk result (IsAtEnd (S.left source.new)) }
    ensures within { IfOk result (λ bytes. length bytes ≤ limit) }
    ensures long { result ≡ Err TooLong → IfSome (S.left source.old) (λ bytes. limit < length bytes) }
    ensures cause { result ≡ Err ReadFault → Rose (S.faults source.old) (S.faults source.new) }
    ensures taken { (bytes : List ℕ) × Consumes (S.left source.old) (S.left source.new) bytes }
    ensures count { S.faults source.old ≤ S.faults source.new }
    ensures beside { S.aside source.new ≡ S.aside source.old }
{
    let mut buffer = Vec::new(alloc);
    let mut filled = 0;
    'reading: while filled <= limit {
        make_room(&mut buffer, filled, limit)?;
        let count = fill(source, &mut buffer, filled)?;
        if count == 0 {
            buffer.truncate(filled);
            return Ok(List { items: buffer });
        }
        filled += count;
    }
    Err(ReadEnd::TooLong)
}
