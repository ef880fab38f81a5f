ghost use Rattle.std.specs.Prelude.{◌≡◌, ◌≢◌, ℕ, ◌-◌, ◌^◌, ◌<◌, ◌≤◌, ◌↔◌, List, length, Option, Some, None, Ok, IfSome, IfOk, OnErr};
ghost use Rattle.dt_base.specs.Faults.{Rose};
ghost use Rattle.connections.specs.Records.{LinkRecord, Takes, Gains};

use dt_base::{Failed, Link};

/// Where a worker waits for links, a bounded number of turns.
///
/// `left` is how many turns are left, `faults` counts the turns that failed, and `lost` rises with each link that was
/// handed back after a fault of its own. A door in memory also tells what is `ahead`, one entry per turn that is left, which is the
/// record of the link that the turn gives, or none where it fails, and the records of the links that are `gone`, as they
/// were when they were handed back; a door to a network does not.
pub trait Door {
    /// A connection that it gives.
    type Link: Link;

    ghost faults: { Self → ℕ };

    ghost left: { Self → ℕ };

    ghost lost: { Self → ℕ };

    ghost ahead: { Self → Option (List (Option LinkRecord)) };

    ghost gone: { Self → Option (List LinkRecord) };

    /// Takes the next turn, where one is left, and gives its link, which has no fault so far. A turn fails only where
    /// the count of faults rose.
    fn next(&mut self) -> Result<Option<Self::Link>, Failed>
        ensures end { (result ≡ Ok None) ↔ (left self.old ≡ 0) }
        ensures left { left self.new ≡ left self.old - 1 }
        ensures fresh { IfOk result (λ turn. IfSome turn (λ link. Self.Link.Source.faults link ≡ 0)) }
        ensures given { IfOk result (λ turn. IfSome turn (λ link.
            Takes (ahead self.old) (ahead self.new) (Some (record {
              left = Self.Link.Source.left link;
              taken = Self.Link.Sink.taken link;
              faults = Self.Link.Source.faults link;
            })))) }
        ensures failed { OnErr result (Takes (ahead self.old) (ahead self.new) None) }
        ensures ended { result ≡ Ok None → ahead self.new ≡ ahead self.old }
        ensures cause { OnErr result (Rose (faults self.old) (faults self.new)) }
        ensures count { faults self.old ≤ faults self.new }
        ensures lost { lost self.new ≡ lost self.old }
        ensures gone { gone self.new ≡ gone self.old };

    /// Takes a link back. It takes no memory.
    fn done(&mut self, link: Self::Link)
        ensures sound { Self.Link.Source.faults link ≡ 0 → lost self.new ≡ lost self.old }
        ensures broken { Self.Link.Source.faults link ≢ 0 → Rose (lost self.old) (lost self.new) }
        ensures lost { lost self.old ≤ lost self.new }
        ensures gone { Gains (gone self.old) (gone self.new) (record {
          left = Self.Link.Source.left link;
          taken = Self.Link.Sink.taken link;
          faults = Self.Link.Source.faults link;
        }) }
        ensures ahead { ahead self.new ≡ ahead self.old }
        ensures left { left self.new ≡ left self.old }
        ensures count { faults self.new ≡ faults self.old };

    // The number of turns is below 2^32.
    ghost within: { (door : Self) → left door < 2 ^ 32 };

    // Where the turns are told, one entry stands for each that is left.
    ghost one_each: { (door : Self) → IfSome (ahead door) (λ turns. length turns ≡ left door) };
}
