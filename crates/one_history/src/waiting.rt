//! How callers wait without burning processors. Nothing here is a step of the rule.
use crate::shared::Shared;
use crate::turns::{DRAWN, SERVING};
use crossbeam_utils::Backoff;
use dt_base::Object;
use std::sync::Wait;
use std::sync::atomic::AtomicU64;
use std::sync::atomic::Ordering::SeqCst;

// How many tickets may be out where a caller draws one more. A caller with a ticket has to be awake
// when its turn comes, or all wait for it: so the threads that run take turns, and the others sleep
// at the gate.
const ROOM: u64 = 1;

/// Where callers sleep that have no ticket. `epoch` counts the calls to come in, `sleepers` those who
/// sleep or are about to, and `coming` is 1 while one who was called may be on the way.
#[derive(Drop)]
pub(crate) struct Gate {
    epoch: AtomicU64,
    sleepers: AtomicU64,
    coming: AtomicU64,
}

impl Gate {
    pub(crate) fn new() -> Gate {
        Gate {
            epoch: AtomicU64::new(0),
            sleepers: AtomicU64::new(0),
            coming: AtomicU64::new(0),
        }
    }

    // Announces a sleeper. Test then whether to sleep, and call `leave` after.
    // A call before this one looked at `epoch` may have woken nobody, so `coming` is cleared after.
    fn come(&self) -> u64 {
        self.sleepers.fetch_add(1, SeqCst);
        let epoch = self.epoch.load(SeqCst);
        self.clear();
        epoch
    }

    // Nobody is on the way. It is read first, since all who leave a turn look at it.
    fn clear(&self) {
        if self.coming.load(SeqCst) != 0 {
            self.coming.store(0, SeqCst);
        }
    }

    // Sleeps, unless one was called since `come`.
    fn sleep<R: Wait>(&self, rt: &R, epoch: u64) {
        self.epoch.park(rt, (epoch & 0xffff_ffff) as u32);
    }

    // Whoever leaves says so last: a sleeper that is counted when one is called clears `coming` after.
    fn leave(&self) {
        self.sleepers.fetch_sub(1, SeqCst);
        self.clear();
    }

    // Calls one in, unless one is on the way.
    fn call_one(&self) {
        if self.sleepers.load(SeqCst) == 0 || self.coming.load(SeqCst) == 1 {
            return;
        }
        if self.coming.swap(1, SeqCst) == 1 {
            return;
        }
        if self.sleepers.load(SeqCst) == 0 {
            self.clear();
            return;
        }
        self.epoch.fetch_add(1, SeqCst);
        self.epoch.wake_one();
    }
}

impl<O: Object> Shared<O> {
    fn has_room(&self) -> bool {
        let serving = self.table.shared.peek(SERVING);
        self.table.shared.peek(DRAWN).saturating_sub(serving) < ROOM
    }

    // Waits, without a ticket, until there is room.
    pub(crate) fn wait_for_room<R: Wait>(&self, rt: &R) {
        let backoff = Backoff::new();
        for _ in rt.forever() {
            if self.has_room() {
                return;
            }
            if backoff.is_completed() {
                let epoch = self.gate.come();
                if !self.has_room() {
                    self.gate.sleep(rt, epoch);
                }
                self.gate.leave();
                // Another caller may have come first. It is done soon, so this one spins again.
                backoff.reset();
            } else {
                backoff.snooze();
            }
        }
        unreachable!()
    }

    // Wakes those in the queue, and where there is room one who sleeps at the gate. Call it after
    // each turn: whoever has the last ticket finds room.
    pub(crate) fn wake_next(&self) {
        self.queue.notify_all();
        if self.has_room() {
            self.gate.call_one();
        }
    }
}
