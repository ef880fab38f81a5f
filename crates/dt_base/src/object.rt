ghost use Rattle.std.specs.Prelude.{◌≡◌, IfOk, OnErr};

use crate::OutOfMemory;

/// An object that answers one ask at a time, and so goes from state to state.
///
/// What it is seen as is this project's own: a state, the asks that it may be asked, the replies
/// that it may give, and the state that each of them leaves.
pub trait Object {
    /// What the object is asked.
    type Ask;
    /// What it answers.
    type Reply;

    // What a state is.
    ghost State: { Type 0 };
    // The state that the object stands for.
    ghost state: { Self → Self.State };
    // Which asks may be made.
    ghost sound: { Self.Ask → Type 0 };
    // Which replies a state allows to an ask. It may allow several.
    ghost allowed: { Self.State → Self.Ask → Self.Reply → Type 0 };
    // The state that follows a state, an ask and its reply.
    ghost follows: { Self.State → Self.Ask → Self.Reply → Self.State };

    /// Answers an ask.
    ///
    /// An allowed reply is given, and the object is in the state that follows.
    /// After `OutOfMemory` its state is what it was.
    fn step(&mut self, ask: &Self::Ask) -> Result<Self::Reply, OutOfMemory>
        requires sound { Self.sound ask.now }
        ensures allowed { IfOk result (λ reply. Self.allowed (Self.state self.old) ask.now reply) }
        ensures follows { IfOk result (λ reply. Self.state self.new ≡ Self.follows (Self.state self.old) ask.now reply) }
        ensures unchanged { OnErr result (Self.state self.new ≡ Self.state self.old) };
}
