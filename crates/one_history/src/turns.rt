//! How a seat comes to its turn, and what it does then.
ghost use Rattle.std.specs.Prelude.{◌≡◌, true, false, ℕ, [], ◌∷◌, ◌++◌, Some, IfOk, OnErr};
ghost use Rattle.one_history.specs.declared.history.Turn.TheVariants.{Waits, Serves};
ghost use Rattle.one_history.specs.Histories.{state_after, entry};
ghost use Rattle.one_history.specs.Machinery.Rules.{saw, view, alone};
ghost use Rattle.one_history.specs.Machinery.Plays.{Learns};
ghost use Rattle.one_history.specs.Passes.{Serving};

use crate::history::View;
use crate::plays::{Await, Draw, Enter, Leave, Told};
use crate::shared::Shared;
use atomic_table::Seat;
use crossbeam_utils::Backoff;
use dt_base::{Object, OutOfMemory};
use std::marker::Brand;
use std::sync::Wait;
use std::thread;

// The words and the slot of the table.
pub(crate) const DRAWN: usize = 0;

pub(crate) const SERVING: usize = 1;

const SLOT: usize = 0;

impl<O: Object> Shared<O> {
    // Draws a ticket. At the greatest `u64` there is none, and it waits for ever.
    pub(crate) fn draw<R: Wait>(
        &self,
        rt: &R,
        seat: &mut Seat<Option<O>, View<O, O::Ask, O::Reply>>,
    ) -> u64
        requires own { seat.old.table_id ≡ self.now.table.shared.table_id }
        requires idle { (m : _) × (seat.old.me ≡ (alone m, [])) }
        ensures same { (seat.new.table_id ≡ seat.old.table_id) × (seat.new.id ≡ seat.old.id) }
        ensures drawn { seat.new.me ≡ (view seat.old.me.0.members [] (Waits result), []) }
    {
        let mut next = self.table.shared.peek(DRAWN);
        for _ in rt.forever() {
            if next < u64::MAX {
                let found = self
                    .table
                    .shared
                    .compare_exchange::<Draw>(seat, DRAWN, next, next + 1);
                if found == next {
                    return next;
                }
                next = found;
            } else {
                thread::yield_now();
                next = self.table.shared.peek(DRAWN);
            }
        }
        unreachable!()
    }

    // Looks whether the ticket is served, and takes the slot if it is.
    fn is_served(&self, seat: &mut Seat<Option<O>, View<O, O::Ask, O::Reply>>, ticket: u64) -> bool
        requires own { seat.old.table_id ≡ self.now.table.shared.table_id }
        requires waits { (m : _) × (seat.old.me ≡ (view (m ∷ []) [] (Waits ticket), [])) }
        ensures same { (seat.new.table_id ≡ seat.old.table_id) × (seat.new.id ≡ seat.old.id) }
        ensures served { result ≡ true → (m : _) → seat.old.me ≡ (view (m ∷ []) [] (Waits ticket), []) → (log : _) × (o : O) × Learns O.state O.sound O.allowed O.follows m log × (O.state o ≡ state_after O.follows (O.state m.opening) log) × Serving (saw m log) ticket o seat.new.me }
        ensures not_yet { result ≡ false → seat.new.me ≡ seat.old.me }
    {
        self.table.shared.load::<Await<O>>(seat, SERVING) == ticket
    }

    // Waits until the ticket is served, and takes the slot.
    pub(crate) fn await_turn<R: Wait>(
        &self,
        rt: &R,
        seat: &mut Seat<Option<O>, View<O, O::Ask, O::Reply>>,
        ticket: u64,
    )
        requires own { seat.old.table_id ≡ self.now.table.shared.table_id }
        requires waits { (m : _) × (seat.old.me ≡ (view (m ∷ []) [] (Waits ticket), [])) }
        ensures same { (seat.new.table_id ≡ seat.old.table_id) × (seat.new.id ≡ seat.old.id) }
        ensures served { (m : _) → seat.old.me ≡ (view (m ∷ []) [] (Waits ticket), []) → (log : _) × (o : O) × Learns O.state O.sound O.allowed O.follows m log × (O.state o ≡ state_after O.follows (O.state m.opening) log) × Serving (saw m log) ticket o seat.new.me }
    {
        let backoff = Backoff::new();
        for _ in rt.forever() {
            let sleep = if backoff.is_completed() {
                Some(self.queue.prepare_wait())
            } else {
                None
            };
            if self.is_served(seat, ticket) {
                return;
            }
            match sleep {
                Some(key) => key.wait(rt),
                None => backoff.snooze(),
            }
        }
        unreachable!()
    }

    fn enter<E: Told<O::Ask, O::Reply>>(
        &self,
        seat: &mut Seat<Option<O>, View<O, O::Ask, O::Reply>>,
        ask: &O::Ask,
        reply: &O::Reply,
    )
        requires own { seat.old.table_id ≡ self.now.table.shared.table_id }
        requires told { E.told ask.now reply.now }
        requires only { (a : O.Ask) (r : O.Reply) → E.told a r → (a ≡ ask.now) × (r ≡ reply.now) }
        requires ready { (m : _) × (t : ℕ) × (o : O) × Serving m t o seat.old.me × O.sound ask.now × O.allowed (state_after O.follows (O.state m.opening) m.seen) ask.now reply.now × (O.state o ≡ O.follows (state_after O.follows (O.state m.opening) m.seen) ask.now reply.now) }
        ensures same { (seat.new.table_id ≡ seat.old.table_id) × (seat.new.id ≡ seat.old.id) }
        ensures entered { (m : _) (t : ℕ) (o : O) → Serving m t o seat.old.me → seat.new.me ≡ (alone (saw m (m.seen ++ entry ask.now reply.now m.number ∷ [])), []) }
    {
        self.table.shared.fetch_add::<Enter<E>>(seat, SERVING, 1);
    }

    fn leave(&self, seat: &mut Seat<Option<O>, View<O, O::Ask, O::Reply>>)
        requires own { seat.old.table_id ≡ self.now.table.shared.table_id }
        requires ready { (m : _) × (t : ℕ) × (o : O) × Serving m t o seat.old.me × (O.state o ≡ state_after O.follows (O.state m.opening) m.seen) }
        ensures same { (seat.new.table_id ≡ seat.old.table_id) × (seat.new.id ≡ seat.old.id) }
        ensures left { (m : _) (t : ℕ) (o : O) → Serving m t o seat.old.me → seat.new.me ≡ (alone m, []) }
    {
        self.table.shared.fetch_add::<Leave>(seat, SERVING, 1);
    }

    // Asks the object, which the seat has, and puts it back.
    pub(crate) fn serve(
        &self,
        seat: &mut Seat<Option<O>, View<O, O::Ask, O::Reply>>,
        ask: &O::Ask,
    ) -> Result<O::Reply, OutOfMemory>
        requires own { seat.old.table_id ≡ self.now.table.shared.table_id }
        requires sound { O.sound ask.now }
        requires ready { (m : _) × (t : ℕ) × (o : O) × Serving m t o seat.old.me × (O.state o ≡ state_after O.follows (O.state m.opening) m.seen) }
        ensures same { (seat.new.table_id ≡ seat.old.table_id) × (seat.new.id ≡ seat.old.id) }
        ensures answered { (m : _) (t : ℕ) (o : O) → Serving m t o seat.old.me → IfOk result (λ r. (seat.new.me ≡ (alone (saw m (m.seen ++ entry ask.now r m.number ∷ [])), [])) × O.allowed (state_after O.follows (O.state m.opening) m.seen) ask.now r) }
        ensures refused { (m : _) (t : ℕ) (o : O) → Serving m t o seat.old.me → OnErr result (seat.new.me ≡ (alone m, [])) }
    {
        let Some(mut object) = self.table.shared.exchange(seat, SLOT, None) else {
            unreachable!()
        };
        let answer = object.step(ask);
        let nothing = self.table.shared.exchange(seat, SLOT, Some(object));
        let None = nothing else { unreachable!() };
        match answer {
            Ok(reply) => {
                self.enter::<Brand>(seat, ask, &reply);
                Ok(reply)
            }
            Err(end) => {
                self.leave(seat);
                Err(end)
            }
        }
    }
}
