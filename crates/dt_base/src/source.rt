ghost use Rattle.std.specs.Prelude.{◌≡◌, ℕ, ◌<◌, ◌≤◌, List, Option, Some, None, [], length, take, IfOk, OnErr};
ghost use Rattle.std.specs.Io.KnownBytes.{Consumes, IsAtEnd, Keeps};
ghost use Rattle.dt_base.specs.Faults.{Rose};

use thiserror::Error;

/// A call on an object of the outside that failed. The object's count of faults rose in that call.
#[derive(Clone, Copy, Debug, PartialEq, Eq, Hash, Error)]
#[error("the outside failed")]
pub struct Failed;

/// Where bytes are read from.
///
/// A source in memory tells which bytes it has `left`; a file, a socket or a terminal does not, and what
/// clauses say of content then says nothing. `aside` are told bytes that no call of this trait changes, as
/// those that were written where the source is one end of a link. `faults` counts the failures so far.
pub trait Source {
    ghost left: { Self → Option (List ℕ) };

    ghost aside: { Self → Option (List ℕ) };

    ghost faults: { Self → ℕ };

    /// Moves the first bytes that are left to the front of `into`, and answers how many. 0 comes only where
    /// nothing is left, and `Failed` only where the count of faults rose.
    fn read(&mut self, into: &mut [u8]) -> Result<usize, Failed>
        requires { 0 < length into.old }
        ensures bound { IfOk result (λ n. n ≤ length into.old) }
        ensures moved { IfOk result (λ n. Consumes (left self.old) (left self.new) (take n into.new)) }
        ensures end { IfOk result (λ n. n ≡ 0 → IsAtEnd (left self.new)) }
        ensures failed { OnErr result (Keeps (left self.old) (left self.new)) }
        ensures cause { OnErr result (Rose (faults self.old) (faults self.new)) }
        ensures count { faults self.old ≤ faults self.new }
        ensures beside { aside self.new ≡ aside self.old };
}

/// The source that has nothing to read and never fails.
#[derive(Clone, Copy, Debug, PartialEq, Eq, Hash)]
pub struct QuietSource;

impl Source for QuietSource {
    ghost left = { λ _. Some [] };

    ghost aside = { λ _. None };

    ghost faults = { λ _. 0 };

    fn read(&mut self, _into: &mut [u8]) -> Result<usize, Failed> {
        Ok(0)
    }
}
