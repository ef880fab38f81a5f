//! An object that holds a number, shared.
ghost use Rattle.std.specs.Prelude.{◌≡◌, ◌++◌, ◌∷◌, [], IfOk, IfSome};
ghost use Rattle.one_history.specs.Passes.{number, made, opening, IsPassOf, IsSamePass, IsWholeHistory};
ghost use Rattle.std.specs.Thread.{IsSync};

use crate::{Pass, Shared};
use dt_base::{Object, OutOfMemory};
use std::alloc::{AllocError, Global};
use std::sync::Wait;
use std::test::Fail;
use std::thread::{Threads, join};

enum Ask {
    Add(u64),
    Read,
    // Reads, and takes so long that whoever waits for its turn goes to sleep.
    Linger,
}

// The number, and at which asks there is no memory: each one whose count this divides, if it is not 0.
// `noise` is what lingering has worked out.
#[derive(Drop)]
struct Number {
    value: u64,
    asked: u64,
    fails_each: u64,
    noise: u64,
}

fn zero(fails_each: u64) -> Number {
    Number {
        value: 0,
        asked: 0,
        fails_each,
        noise: 1,
    }
}

// Some tenths of a second of work that no compiler can take out of the loop.
fn work(seed: u64) -> u64 {
    let mut noise = seed;
    for _ in 0..100_000_000u64 {
        noise = noise.wrapping_mul(noise | 5).wrapping_add(noise >> 7);
    }
    noise
}

impl Object for Number {
    ghost use Rattle.std.specs.Prelude.{◌≡◌, ℕ, ◌+◌, ◌%◌, ◌^◌};
    ghost use Rattle.one_history.specs.declared.tests.Ask.TheVariants.{Add, Read, Linger};

    type Ask = Ask;

    type Reply = u64;

    ghost State = { ℕ };

    ghost state = { λ n. n.value };

    ghost sound = { λ ask. Unit {0} };

    ghost allowed = { λ s ask r. elim ask [ Add n ↦ r ≡ (s + n) % 2 ^ 64 | Read ↦ r ≡ s | Linger ↦ r ≡ s ] };

    ghost follows = { λ s ask r. r };

    fn step(&mut self, ask: &Ask) -> Result<u64, OutOfMemory> {
        self.asked = self.asked.wrapping_add(1);
        if self.fails_each != 0 && self.asked % self.fails_each == 0 {
            return Err(OutOfMemory);
        }
        match ask {
            Ask::Add(n) => self.value = self.value.wrapping_add(*n),
            Ask::Read => {}
            Ask::Linger => self.noise = work(self.noise),
        }
        Ok(self.value)
    }
}

// Closes an object with the first pass and the only one that was split off from it.
fn close_two<O: Object + Drop>(
    alloc: Global,
    shared: Shared<O>,
    first: Pass<O>,
    second: Pass<O>,
) -> Result<O, AllocError>
    requires own { IsPassOf shared first × IsPassOf shared second }
    requires first { (number first ≡ []) × (made first ≡ 1) }
    requires second { (number second ≡ 0 ∷ []) × (made second ≡ 0) }
    ensures { IfOk result (λ o. (log : _) × IsWholeHistory O.state O.sound O.allowed O.follows (opening shared) (first ∷ second ∷ []) o log) }
{
    let mut passes = Vec::with_capacity(alloc, 2)?;
    passes.push(first)?;
    passes.push(second)?;
    Ok(shared.close(passes))
}

// Two passes ask one after the other, and meet in between. The contracts alone say that the second
// reply is one to the state that the first left, and that the object is then in the state after both.
fn ask_and_ask<O: Object + Drop, R: Wait>(
    rt: &R,
    alloc: Global,
    object: O,
    one: &O::Ask,
    two: &O::Ask,
) -> Option<(O::Reply, O::Reply, O)>
where
    O::Reply: Drop,
    requires { O.sound one.now × O.sound two.now }
    ensures { IfSome result (λ r. O.allowed (O.state object) one.now r.0 × O.allowed (O.follows (O.state object) one.now r.0) two.now r.1 × (O.state r.2 ≡ O.follows (O.follows (O.state object) one.now r.0) two.now r.1)) }
{
    let Ok((shared, mut p)) = Shared::new(alloc, object) else {
        return None;
    };
    let mut q = shared.split(&mut p);
    let Ok(first) = shared.call(rt, &mut p, one) else {
        return None;
    };
    shared.meet(&mut p, &mut q);
    let Ok(second) = shared.call(rt, &mut q, two) else {
        return None;
    };
    let Ok(object) = close_two(alloc, shared, p, q) else {
        return None;
    };
    Some((first, second, object))
}

fn add_ones<R: Wait>(
    rt: &R,
    shared: &Shared<Number>,
    mut pass: Pass<Number>,
    times: u64,
) -> Pass<Number>
    requires { IsPassOf shared.now pass }
    ensures { IsPassOf shared.now result × IsSamePass pass result }
{
    for _ in 0..times {
        let _ = shared.call(rt, &mut pass, &Ask::Add(1));
    }
    pass
}

fn add_by_two<R: Threads + Wait + Sync>(
    rt: &R,
    shared: &Shared<Number>,
    first: Pass<Number>,
    second: Pass<Number>,
) -> (Pass<Number>, Pass<Number>)
    requires { IsPassOf shared.now first × IsPassOf shared.now second }
    ensures first { IsPassOf shared.now result.0 × IsSamePass first result.0 }
    ensures second { IsPassOf shared.now result.1 × IsSamePass second result.1 }
{
    join(
        rt,
        move || -> Pass<Number>
            requires { IsSync R.row × IsPassOf shared.now first }
            ensures { IsPassOf shared.entry.now result × IsSamePass first result }
        { add_ones(rt, shared, first, 1000) },
        move || -> Pass<Number>
            requires { IsSync R.row × IsPassOf shared.now second }
            ensures { IsPassOf shared.entry.now result × IsSamePass second result }
        { add_ones(rt, shared, second, 1000) },
    )
}

// A call that draws its ticket whether there is room or not, as one that lost the race for the room.
fn call_at_once<R: Wait>(rt: &R, shared: &Shared<Number>, mut pass: Pass<Number>) -> bool
    requires { IsPassOf shared.now pass }
{
    let ticket = shared.draw(rt, &mut pass.seat);
    shared.await_turn(rt, &mut pass.seat, ticket);
    let answer = shared.serve(&mut pass.seat, &Ask::Linger);
    shared.wake_next();
    answer.is_ok()
}

fn call_twice_at_once<R: Threads + Wait + Sync>(
    rt: &R,
    shared: &Shared<Number>,
    first: Pass<Number>,
    second: Pass<Number>,
) -> (bool, bool)
    requires { IsPassOf shared.now first × IsPassOf shared.now second }
{
    join(
        rt,
        move || -> bool
            requires { IsSync R.row × IsPassOf shared.now first }
        { call_at_once(rt, shared, first) },
        move || -> bool
            requires { IsSync R.row × IsPassOf shared.now second }
        { call_at_once(rt, shared, second) },
    )
}

fn shared(alloc: Global, fails_each: u64) -> Result<(Shared<Number>, Pass<Number>), Fail>
    ensures own { IfOk result (λ r. IsPassOf r.0 r.1) }
    ensures first { IfOk result (λ r. (number r.1 ≡ []) × (made r.1 ≡ 0)) }
{
    match Shared::new(alloc, zero(fails_each)) {
        Ok(both) => Ok(both),
        Err(_) => Err("no memory".into()),
    }
}

#[test]
fn what_one_adds_the_other_reads(rt: HostRuntime) -> Result<(), Fail> {
    let asked = ask_and_ask(&rt, rt.alloc(), zero(0), &Ask::Add(2), &Ask::Read);
    let (added, read, object) = asked.ok_or("no memory")?;
    assert_eq!(rt; (added, read, object.value), (2, 2, 2));
    Ok(())
}

#[test]
fn two_threads_add_two_thousand(rt: HostRuntime) -> Result<(), Fail> {
    let (shared, mut p) = shared(rt.alloc(), 0)?;
    let q = shared.split(&mut p);
    let (p, q) = add_by_two(&rt, &shared, p, q);
    assert_eq!(rt; close_two(rt.alloc(), shared, p, q)?.value, 2000);
    Ok(())
}

#[test]
fn a_call_without_memory_leaves_no_entry(rt: HostRuntime) -> Result<(), Fail> {
    let (shared, mut p) = shared(rt.alloc(), 3)?;
    let q = shared.split(&mut p);
    let p = add_ones(&rt, &shared, p, 9);
    assert_eq!(rt; close_two(rt.alloc(), shared, p, q)?.value, 6);
    Ok(())
}

// Both have a ticket while one has the turn, so the other sleeps in the queue until it is woken.
#[test]
fn a_caller_that_sleeps_with_a_ticket_is_woken(rt: HostRuntime) -> Result<(), Fail> {
    let (shared, mut p) = shared(rt.alloc(), 0)?;
    let q = shared.split(&mut p);
    assert_eq!(rt; call_twice_at_once(&rt, &shared, p, q), (true, true));
    Ok(())
}
