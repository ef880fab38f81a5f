//! What passes know, as plain data. No value of these types is made: they stand in proofs alone.
use std::collections::LinkedList;

/// A call that was answered: its ask, its reply and the number of the pass that made it.
pub struct Entry<A, R> {
    pub ask: A,
    pub reply: R,
    pub number: LinkedList<u64>,
}

/// What one pass knows: the object at the opening, its number, the beginning of the history that it
/// has seen, and how many passes were split off from it.
pub struct Member<O, A, R> {
    pub opening: O,
    pub number: LinkedList<u64>,
    pub seen: LinkedList<Entry<A, R>>,
    pub made: u64,
}

/// Where a pass stands in the queue. The number is its ticket.
pub enum Turn {
    Idle,
    Waits(u64),
    Serves(u64),
}

/// What a seat at the table knows: the passes that it stands for, further beginnings of the history
/// that it was told, and its place in the queue. A note stands for no pass.
pub struct View<O, A, R> {
    pub members: LinkedList<Member<O, A, R>>,
    pub older: LinkedList<LinkedList<Entry<A, R>>>,
    pub turn: Turn,
}
