//! The calls.
ghost use Rattle.std.specs.Prelude.{◌≡◌, ◌+◌, ◌<◌, [], ◌∷◌, ◌++◌, length, Contains, IfOk, IfErr, OnErr};
ghost use mathlib.Core.List.{IsPrefix};
ghost use Rattle.one_history.specs.Histories.{IsHistory, GrowsByOthers, GrowsByCall};
ghost use Rattle.one_history.specs.Passes.{seen, number, made, opening, IsPassOf, IsSamePass, IsComplete, IsWholeHistory, members_of};
ghost use Rattle.one_history.specs.declared.history.Turn.TheVariants.{Idle};

use crate::history::View;
use crate::plays::{Check, Cut, Look, Merge, Note};
use crate::shared::{NewEnd, Pass, Shared};
use crate::turns::SERVING;
use crate::waiting::Gate;
use atomic_table::{Refused, Seat, Table};
use crossbeam_utils::CachePadded;
use crossbeam_utils::sync::EventCount;
use dt_base::{Object, OutOfMemory};
use std::alloc::{AllocFailed, Global};
use std::snapshot::Snapshot;
use std::sync::Wait;

// The one element of a row that has one.
fn only<O>(mut row: Vec<Option<O>>) -> O
    requires { (o : O) × (row.items ≡ Some o ∷ []) }
    ensures { row.items ≡ Some result ∷ [] }
{
    let Some(Some(object)) = row.pop() else {
        unreachable!()
    };
    row.destroy_empty();
    object
}

// The row of one slot, with the object.
fn row<O>(alloc: Global, object: O) -> Result<Vec<Option<O>>, NewEnd<O>>
    ensures ok { IfOk result (λ v. v.items ≡ Some object ∷ []) }
    ensures back { IfErr result (λ e. e.back ≡ object) }
{
    let mut row = Vec::new(alloc);
    match row.push(Some(object)) {
        Ok(()) => Ok(row),
        Err(AllocFailed { value }) => {
            row.destroy_empty();
            let Some(back) = value else { unreachable!() };
            Err(NewEnd { back })
        }
    }
}

impl<O: Object> Shared<O> {
    /// Shares an object, which begins in the state that it is in, and gives the first pass.
    /// It has seen nothing, its number is the empty list, and no pass was split off from it.
    ///
    /// `Err` is want of memory, and hands the object back.
    pub fn new(alloc: Global, object: O) -> Result<(Shared<O>, Pass<O>), NewEnd<O>>
        ensures opened { IfOk result (λ r. (opening r.0 ≡ object) × IsPassOf r.0 r.1) }
        ensures first { IfOk result (λ r. (seen r.1 ≡ []) × (number r.1 ≡ []) × (made r.1 ≡ 0)) }
        ensures history { IfOk result (λ r. IsHistory O.sound O.allowed O.follows (O.state (opening r.0)) (seen r.1)) }
        ensures back { IfErr result (λ e. e.back ≡ object) }
    {
        let first = Snapshot::of(&object);
        let row = row(alloc, object)?;
        match Table::new(alloc, &[0, 0], row, &first) {
            Ok((table, seat)) => {
                let shared = Shared {
                    table,
                    gate: CachePadded::new(Gate::new()),
                    queue: CachePadded::new(EventCount::new()),
                };
                Ok((shared, Pass { seat }))
            }
            Err(Refused { slots }) => Err(NewEnd { back: only(slots) }),
        }
    }

    /// Splits a pass off from another one, as for another thread.
    /// It has seen what the old one has, and its number is the number of the old one, followed by how
    /// many passes were split off from that before. So no two passes have one number.
    pub fn split(&self, pass: &mut Pass<O>) -> Pass<O>
        requires own { IsPassOf self.now pass.old }
        ensures old { IsPassOf self.now pass.new × (seen pass.new ≡ seen pass.old) × (number pass.new ≡ number pass.old) × (made pass.new ≡ made pass.old + 1) }
        ensures new { IsPassOf self.now result × (seen result ≡ seen pass.old) × (number result ≡ number pass.old ++ made pass.old ∷ []) × (made result ≡ 0) }
        ensures history { IsHistory O.sound O.allowed O.follows (O.state (opening self.now)) (seen pass.old) }
    {
        self.table.shared.load::<Check<O>>(&mut pass.seat, SERVING);
        Pass {
            seat: self.table.shared.split_seat::<Cut>(&mut pass.seat),
        }
    }

    /// Asks the object, once it is the caller's turn.
    ///
    /// Callers are served in the order of their tickets. A ticket is drawn where there is room, so a caller
    /// that comes just then may draw before one that slept and was woken: the order of tickets is not that
    /// in which callers came.
    ///
    /// After `Ok` the pass has seen what it had seen, then perhaps entries of other passes, and then
    /// this call with its reply. After `OutOfMemory` there is no entry of this call.
    pub fn call<R: Wait>(
        &self,
        rt: &R,
        pass: &mut Pass<O>,
        ask: &O::Ask,
    ) -> Result<O::Reply, OutOfMemory>
        requires own { IsPassOf self.now pass.old }
        requires sound { O.sound ask.now }
        ensures own { IsPassOf self.now pass.new × IsSamePass pass.old pass.new }
        ensures answered { IfOk result (λ reply. GrowsByCall (number pass.old) ask.now reply (seen pass.old) (seen pass.new)) }
        ensures refused { OnErr result (GrowsByOthers (number pass.old) (seen pass.old) (seen pass.new)) }
        ensures history { IsHistory O.sound O.allowed O.follows (O.state (opening self.now)) (seen pass.new) }
    {
        self.wait_for_room(rt);
        let ticket = self.draw(rt, &mut pass.seat);
        self.await_turn(rt, &mut pass.seat, ticket);
        let answer = self.serve(&mut pass.seat, ask);
        self.wake_next();
        answer
    }

    /// Two passes tell each other what they have seen.
    /// Afterwards both have seen beginnings of one history, and each all that either had seen.
    pub fn meet(&self, a: &mut Pass<O>, b: &mut Pass<O>)
        requires own { IsPassOf self.now a.old × IsPassOf self.now b.old }
        ensures own { IsPassOf self.now a.new × IsSamePass a.old a.new × IsPassOf self.now b.new × IsSamePass b.old b.new }
        ensures grow { GrowsByOthers (number a.old) (seen a.old) (seen a.new) × GrowsByOthers (number b.old) (seen b.old) (seen b.new) }
        ensures told { IsPrefix (seen a.old) (seen b.new) × IsPrefix (seen b.old) (seen a.new) }
        ensures history { (log : _) × IsHistory O.sound O.allowed O.follows (O.state (opening self.now)) log × IsPrefix (seen a.new) log × IsPrefix (seen b.new) log }
        ensures each { IsHistory O.sound O.allowed O.follows (O.state (opening self.now)) (seen a.new) × IsHistory O.sound O.allowed O.follows (O.state (opening self.now)) (seen b.new) }
    {
        self.tell(a, b);
        self.tell(b, a);
    }

    // `to` is told what `from` has seen, and has then seen all of the history.
    fn tell(&self, from: &mut Pass<O>, to: &mut Pass<O>)
        requires own { IsPassOf self.now from.old × IsPassOf self.now to.old }
        ensures from { IsPassOf self.now from.new × (seen from.new ≡ seen from.old) × IsSamePass from.old from.new }
        ensures to { IsPassOf self.now to.new × IsSamePass to.old to.new }
        ensures grow { GrowsByOthers (number to.old) (seen to.old) (seen to.new) }
        ensures told { IsPrefix (seen from.old) (seen to.new) }
        ensures history { IsHistory O.sound O.allowed O.follows (O.state (opening self.now)) (seen to.new) }
    {
        let note = self.table.shared.split_seat::<Note>(&mut from.seat);
        self.table.shared.join_seat::<Merge>(&mut to.seat, note);
        self.table.shared.load::<Look<O>>(&mut to.seat, SERVING);
    }

    /// Ends the sharing, and gives the object, in the state that the whole history leaves.
    /// The passes have to be all that were made.
    ///
    /// The history is the longest that a pass has seen. The others have seen beginnings of it, each
    /// with all its own entries, and there are no entries but those of the passes. No two passes have
    /// one number.
    pub fn close(self, passes: Vec<Pass<O>>) -> O
        requires own { (p : _) → Contains passes.items p → IsPassOf self p }
        requires all { IsComplete passes.items }
        ensures { (log : _) × IsWholeHistory O.state O.sound O.allowed O.follows (opening self) passes.items result log }
    {
        let whole = self.join_all(passes);
        let Shared {
            table,
            gate: _,
            queue: _,
        } = self;
        let mut closed = table.close_with(whole);
        let Some(object) = closed.take(0) else {
            unreachable!()
        };
        closed.free();
        object
    }

    // One seat that stands for all the passes.
    fn join_all(&self, mut passes: Vec<Pass<O>>) -> Seat<Option<O>, View<O, O::Ask, O::Reply>>
        requires own { (p : _) → Contains passes.items p → IsPassOf self.now p }
        requires some { 0 < length passes.items }
        ensures own { result.table_id ≡ self.now.table.shared.table_id }
        ensures all { result.me.0.members ≡ members_of passes.items }
        ensures idle { result.me.0.turn ≡ Idle }
    {
        let Some(last) = passes.pop() else {
            unreachable!()
        };
        let mut whole = last.into_seat();
        while let Some(pass) = passes.pop() {
            self.table
                .shared
                .join_seat::<Merge>(&mut whole, pass.into_seat());
        }
        passes.destroy_empty();
        whole
    }
}
