ghost use Rattle.std.specs.Prelude.{◌≡◌, ℕ, ◌<◌, ◌≤◌, List, Option, None, length, take, IfOk, OnErr};
ghost use Rattle.std.specs.Io.KnownBytes.{Appends, Keeps};
ghost use Rattle.dt_base.specs.Faults.{Rose};

use crate::Failed;
use thiserror::Error;

/// A write that failed. The sink's count of faults rose, and a proper prefix of the bytes was written.
#[derive(Clone, Copy, Debug, PartialEq, Eq, Hash, Error)]
#[error("the write failed")]
pub struct WriteFault;

/// Where bytes are written to.
///
/// A sink in memory tells which bytes it has `taken`; a file, a socket or a terminal does not. `aside` are
/// told bytes that no call of this trait changes, as those that are left to read where the sink is one end
/// of a link. `faults` counts the failures so far.
pub trait Sink {
    ghost taken: { Self → Option (List ℕ) };

    ghost aside: { Self → Option (List ℕ) };

    ghost faults: { Self → ℕ };

    /// Takes the first bytes of `piece`, one at least, and answers how many. `Failed` comes only where the
    /// count of faults rose, and then nothing was taken.
    fn write(&mut self, piece: &[u8]) -> Result<usize, Failed>
        requires { 0 < length piece.now }
        ensures some { IfOk result (λ n. 0 < n) }
        ensures bound { IfOk result (λ n. n ≤ length piece.now) }
        ensures appended { IfOk result (λ n. Appends (taken self.old) (taken self.new) (take n piece.now)) }
        ensures failed { OnErr result (Keeps (taken self.old) (taken self.new)) }
        ensures cause { OnErr result (Rose (faults self.old) (faults self.new)) }
        ensures count { faults self.old ≤ faults self.new }
        ensures beside { aside self.new ≡ aside self.old };
}

/// The sink that takes every byte, keeps none and never fails.
#[derive(Clone, Copy, Debug, PartialEq, Eq, Hash)]
pub struct QuietSink;

impl Sink for QuietSink {
    ghost taken = { λ _. None };

    ghost aside = { λ _. None };

    ghost faults = { λ _. 0 };

    fn write(&mut self, piece: &[u8]) -> Result<usize, Failed>
        ensures { result ≡ Ok (length piece.now) }
    {
        Ok(piece.len())
    }
}
