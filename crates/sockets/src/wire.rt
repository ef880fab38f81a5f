//! A stream whose calls have their times.

ghost use Rattle.std.specs.Prelude.{◌≤◌, length, IfOk};
ghost use Rattle.std.specs.Io.{ReadsAtMost, WritesAtMost};

use std::io;
use std::io::{ErrorKind, Read, Write};
use std::net::{Shutdown, TcpStream};
use std::time::{Clock, Duration, Instant};

/// For how many seconds the first bytes of a message are waited for, and how long all of an answer may take.
const WAIT_SECONDS: u64 = 60;

/// How many seconds the rest of a message may take once its first bytes have come.
const REST_SECONDS: u64 = 10;

/// For how many seconds is read behind the last answer at most.
const FAREWELL_SECONDS: u64 = 1;

/// How many bytes are read behind the last answer at most, but for the last piece of them.
const FAREWELL_BYTES: usize = 65_536;

/// How many bytes one read behind the last answer takes at most.
const FAREWELL_PIECE: usize = 4096;

/// What a stream is about.
#[derive(Clone, Copy)]
enum Turn {
    /// The first bytes of a message are waited for.
    Waiting,
    /// The first bytes of a message came then.
    Receiving(Instant),
    /// The first bytes of an answer were to be sent then.
    Sending(Instant),
}

/// A TCP stream on which no message and no answer takes for ever.
#[derive(Drop)]
pub(crate) struct Wire<C: Clock + Drop> {
    stream: TcpStream,
    clock: C,
    turn: Turn,
}

impl<C: Clock + Drop> Wire<C> {
    /// A wire over a new stream. Small pieces go out at once, where the system lets them.
    pub(crate) fn new(stream: TcpStream, clock: C) -> Wire<C> {
        let _ = stream.set_nodelay(true);
        Wire {
            stream,
            clock,
            turn: Turn::Waiting,
        }
    }

    /// What is left of so many seconds that began then.
    fn left_of(&self, seconds: u64, begun: Instant) -> io::Result<Duration> {
        let left = Duration::from_secs(seconds).saturating_sub(begun.elapsed(&self.clock)?);
        if left.is_zero() {
            return Err(io::Error::from(ErrorKind::TimedOut));
        }
        Ok(left)
    }

    /// How long a read may wait.
    fn read_time(&self) -> io::Result<Duration> {
        match self.turn {
            Turn::Receiving(begun) => self.left_of(REST_SECONDS, begun),
            Turn::Waiting | Turn::Sending(_) => Ok(Duration::from_secs(WAIT_SECONDS)),
        }
    }

    /// How long a write may wait. With the first of an answer its time begins.
    fn write_time(&mut self) -> io::Result<Duration> {
        if let Turn::Sending(begun) = self.turn {
            return self.left_of(WAIT_SECONDS, begun);
        }
        self.turn = Turn::Sending(Instant::now(&self.clock)?);
        Ok(Duration::from_secs(WAIT_SECONDS))
    }

    /// With the first bytes of a message the time of its rest begins.
    fn begin_message(&mut self) {
        if let Turn::Receiving(_) = self.turn {
            return;
        }
        if let Ok(now) = Instant::now(&self.clock) {
            self.turn = Turn::Receiving(now);
        }
    }

    /// Reads once, and again where a signal interrupted the call.
    pub(crate) fn read(&mut self, into: &mut [u8]) -> io::Result<usize>
        ensures { ReadsAtMost result into.new }
    {
        for _ in 0..u64::MAX {
            self.stream.set_read_timeout(Some(self.read_time()?))?;
            match self.stream.read(into) {
                Err(error) if error.kind() == ErrorKind::Interrupted => {}
                Err(error) => return Err(error),
                Ok(count) => {
                    self.begin_message();
                    return Ok(count);
                }
            }
        }
        Err(io::Error::from(ErrorKind::Interrupted))
    }

    /// Writes once, and again where a signal interrupted the call.
    pub(crate) fn write(&mut self, piece: &[u8]) -> io::Result<usize>
        ensures { WritesAtMost result piece.now }
    {
        for _ in 0..u64::MAX {
            let time = self.write_time()?;
            self.stream.set_write_timeout(Some(time))?;
            match self.stream.write(piece) {
                Err(error) if error.kind() == ErrorKind::Interrupted => {}
                ended => return ended,
            }
        }
        Err(io::Error::from(ErrorKind::Interrupted))
    }

    /// Lets the other end have the last answer before the stream is closed: says that nothing more is written, and reads
    /// what the other end still sends, since bytes that nobody read at the close would make the system take the answer back.
    pub(crate) fn farewell(self) {
        let _ = self.read_to_farewell();
    }

    fn read_to_farewell(mut self) -> io::Result<()> {
        self.stream.shutdown(Shutdown::Write)?;
        let begun = Instant::now(&self.clock)?;
        let mut room = [0; FAREWELL_PIECE];
        let mut taken: usize = 0;
        for _ in 0..FAREWELL_BYTES {
            let time = self.left_of(FAREWELL_SECONDS, begun)?;
            self.stream.set_read_timeout(Some(time))?;
            let count = self.stream.read(&mut room)?;
            taken = taken.saturating_add(count);
            if count == 0 || taken >= FAREWELL_BYTES {
                break;
            }
        }
        Ok(())
    }
}
