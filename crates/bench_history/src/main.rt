//! Calls a second of one shared object, by 4 threads and by 64.
//!
//! With no argument it makes fewer calls and prints only what they add up to, which no timing changes.
#![tactic(auto)]

ghost use Rattle.one_history.specs.Passes.{IsPassOf};
ghost use Rattle.std.specs.Thread.{IsSync};

mod number;

use anyhow::Context;
use number::{Ask, Number};
use one_history::{Pass, Shared};
use std::env;
use std::sync::Wait;
use std::thread::{Threads, join};
use std::time::{Clock, Instant};

// Adds 1, that many times.
fn add_ones<R: Wait>(
    rt: &R,
    shared: &Shared<Number>,
    mut pass: Pass<Number>,
    times: u64,
) -> Pass<Number>
    requires { IsPassOf shared.now pass }
    ensures { IsPassOf shared.now result }
{
    for _ in 0..times {
        let _ = shared.call(rt, &mut pass, &Ask::Add(1));
    }
    pass
}

// The same by many threads, each with a pass of its own. The passes that are split off are let go.
fn add_by_many<R: Threads + Wait + Sync>(
    rt: &R,
    shared: &Shared<Number>,
    mut pass: Pass<Number>,
    threads: u64,
    times: u64,
) -> Pass<Number>
    requires { IsPassOf shared.now pass }
    ensures { IsPassOf shared.now result }
{
    if threads <= 1 {
        return add_ones(rt, shared, pass, times);
    }
    let other = shared.split(&mut pass);
    let half = threads / 2;
    let rest = threads - half;
    let (pass, _other) = join(
        rt,
        move || -> Pass<Number>
            requires { IsSync R.row × IsPassOf shared.now pass }
            ensures { IsPassOf shared.entry.now result }
        { add_by_many(rt, shared, pass, rest, times) },
        move || -> Pass<Number>
            requires { IsSync R.row × IsPassOf shared.now other }
            ensures { IsPassOf shared.entry.now result }
        { add_by_many(rt, shared, other, half, times) },
    );
    pass
}

fn main(rt: HostRuntime) -> anyhow::Result<()> {
    let timed = env::args(&rt)?.count() > 1;
    let times = if timed { 2_000_000 } else { 2_000 };
    for threads in [4, 64] {
        let Ok((shared, pass)) = Shared::new(rt.alloc(), Number::new()) else {
            anyhow::bail!("no memory");
        };
        let start = Instant::now(&rt)?;
        let mut pass = add_by_many(&rt, &shared, pass, threads, times / threads);
        let took = start.elapsed(&rt)?;
        let total = shared.call(&rt, &mut pass, &Ask::Read)?;
        println!(rt; "{threads} threads: {total} calls")?;
        if timed {
            let micros = took.as_micros().max(1);
            println!(rt;
                "{threads} threads: {} calls a second",
                u128::from(total) * 1_000_000 / micros
            )?;
        }
    }
    Ok(())
}
