//! The object that threads share, and their passes.
ghost use Rattle.std.specs.Prelude.{◌≡◌};

use crate::history::View;
use crate::rule::Law;
use crate::waiting::Gate;
use atomic_table::{Seat, Table};
use crossbeam_utils::CachePadded;
use crossbeam_utils::sync::EventCount;
use dt_base::Object;
use std::alloc::Global;
use std::snapshot::Snapshot;

/// One object, which any number of threads call, one at a time.
#[derive(Drop)]
pub struct Shared<O: Object> {
    pub(crate) table: Table<Option<O>, View<O, O::Ask, O::Reply>, Snapshot<O>, Law<O>, Global>,
    // Where callers sleep: at the gate before they have a ticket, and then in the queue. Each stands alone in its
    // cache lines, since all who call read what stands beside them.
    pub(crate) gate: CachePadded<Gate>,
    pub(crate) queue: CachePadded<EventCount>,
    ghost size: { (table.shared.table_id.words ≡ 2) × (table.shared.table_id.slots ≡ 1) },
}

/// A caller's token. It has no bytes.
pub struct Pass<O: Object> {
    pub(crate) seat: Seat<Option<O>, View<O, O::Ask, O::Reply>>,
}

impl<O: Object> Pass<O> {
    pub(crate) fn into_seat(self) -> Seat<Option<O>, View<O, O::Ask, O::Reply>>
        ensures { result ≡ self.seat }
    {
        let Pass { seat } = self;
        seat
    }
}

impl<O: Object> Drop for Pass<O> {
    fn drop(self) {
        let Self { seat: _ } = self;
    }
}

/// There was no memory. The object comes back.
#[derive(Drop)]
pub struct NewEnd<O> {
    pub back: O,
}
