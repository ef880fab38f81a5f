ghost use Rattle.std.specs.Prelude.{◌≡◌};

use crate::{Sink, Source};

/// One end of a connection: what the other end sent is read from it, and what is written to it the other end
/// gets.
///
/// Its counts of faults as a source and as a sink are one number. What is `taken` stands aside of its reads,
/// and what is `left` aside of its writes.
pub trait Link: Source + Sink {
    ghost one_count: { (link : Self) → Self.Source.faults link ≡ Self.Sink.faults link };

    ghost taken_aside: { (link : Self) → Self.Source.aside link ≡ Self.Sink.taken link };

    ghost left_aside: { (link : Self) → Self.Sink.aside link ≡ Self.Source.left link };
}
