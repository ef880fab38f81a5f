//! Doors, harbors, dials and gates in memory.

ghost use Rattle.std.specs.Prelude.{◌≡◌, ◌<◌, ◌^◌, IfOk, length, All};
ghost use Rattle.connections.specs.Turns.{IsFresh};

use connections::{
    Dial, DialEnd, Door, Gate, Harbor, HarborEnd, MemDial, MemDoor, MemHarbor, MemLink, OpenGate,
};
use dt_base::{List, OutOfMemory, Sink, Source};
use std::alloc::Global;
use std::sync::Wait;
use std::test::Fail;

/// A list of the items.
fn list_of(alloc: Global, items: &[u8]) -> Result<List<u8>, OutOfMemory> {
    Ok(List::from_vec(Vec::from_slice(alloc, items)?))
}

/// A link that has these bytes left, and fails at its second call where it is to.
fn link(alloc: Global, bytes: &[u8], fails: bool) -> Result<MemLink, OutOfMemory>
    ensures { IfOk result (λ link. link.faults ≡ 0) }
{
    let mut failing = List::new(alloc);
    if fails {
        failing.push(2)?;
    }
    let left = list_of(alloc, bytes)?;
    MemLink::new(alloc, left, 100, failing, List::new(alloc))
}

/// Three turns: a link, a failure, and a link whose second call fails.
fn three_turns(alloc: Global) -> Result<List<Option<MemLink>>, OutOfMemory>
    ensures few { IfOk result (λ turns. length turns < 2 ^ 32) }
    ensures fresh { IfOk result (All IsFresh) }
{
    let first = link(alloc, b"first", false)?;
    let third = link(alloc, b"third", true)?;
    let turns = Vec::from_array(alloc, [Some(first), None, Some(third)])?;
    Ok(List::from_vec(turns))
}

/// What a turn of a door does: reads, answers and hands the link back. Tells the first byte that was read.
fn turn<D: Door>(door: &mut D) -> char {
    let mut into = [0; 8];
    match door.next() {
        Err(_) => '!',
        Ok(None) => '.',
        Ok(Some(mut link)) => {
            let _ = link.read(&mut into);
            let _ = link.write(b"reply");
            door.done(link);
            into[0] as char
        }
    }
}

/// What the link that was handed back last has taken, and its count of faults.
fn last_gone(door: &MemDoor) -> Option<(&[u8], u64)> {
    let (link, faults, _) = door.gone().last()?;
    Some((link.taken(), faults))
}

#[test]
fn a_door_gives_its_turns(rt: HostRuntime) -> Result<(), Fail> {
    let mut door = MemDoor::new(three_turns(rt.alloc())?);
    let first = turn(&mut door);
    let is_taken = last_gone(&door) == Some((b"reply".as_slice(), 0));
    let others = [turn(&mut door), turn(&mut door), turn(&mut door)];
    let is_broken = last_gone(&door) == Some((b"".as_slice(), 1));
    drop(door);
    assert!(rt; (first, is_taken, others, is_broken) == ('f', true, ['!', 't', '.'], true));
    Ok(())
}

/// What three turns of each of the doors do, where they are opened.
fn turns_of(harbor: &mut MemHarbor, workers: u32, each: u32) -> Result<[char; 6], HarborEnd> {
    let mut told = [' '; 6];
    let mut at = 0;
    for door in harbor.open(1, workers, each)?.items.iter_mut() {
        for _ in 0..3 {
            if at < 6 {
                told[at] = turn(door);
                at += 1;
            }
        }
    }
    Ok(told)
}

/// A harbor that has one door of three turns.
fn harbor(alloc: Global, fails: bool) -> Result<MemHarbor, OutOfMemory> {
    let turns = three_turns(alloc)?;
    let doors = Vec::from_array(alloc, [turns])?;
    Ok(MemHarbor::new(alloc, List::from_vec(doors), fails))
}

#[test]
fn a_harbor_gives_what_is_asked_for(rt: HostRuntime) -> Result<(), Fail> {
    for (workers, each, want) in [
        (1, 2, ['f', '!', '.', ' ', ' ', ' ']),
        (2, 2, ['f', '!', '.', '!', '!', '.']),
        (1, 4, ['f', '!', 't', ' ', ' ', ' ']),
    ] {
        let mut harbor = harbor(rt.alloc(), false)?;
        let told = turns_of(&mut harbor, workers, each);
        drop(harbor);
        assert!(rt; told == Ok(want), "{workers} of {each}");
    }
    let mut failing = harbor(rt.alloc(), true)?;
    let told = turns_of(&mut failing, 1, 1);
    drop(failing);
    assert!(rt; told == Err(HarborEnd::Failed));
    Ok(())
}

/// What two dials do, of which the link of the first is handed back.
fn two_dials(dial: &mut MemDial) -> (char, Option<DialEnd>) {
    let first = match dial.dial("localhost", 1) {
        Err(_) => '!',
        Ok(mut link) => {
            let mut into = [0; 8];
            let _ = link.read(&mut into);
            dial.done(link);
            into[0] as char
        }
    };
    (first, dial.dial("localhost", 1).err())
}

#[test]
fn a_dial_gives_its_link_once(rt: HostRuntime) -> Result<(), Fail> {
    let mut dial = MemDial::new(Some(link(rt.alloc(), b"reply", false)?));
    let told = two_dials(&mut dial);
    let is_gone = dial.gone().last().is_some();
    drop(dial);
    let mut none = MemDial::new(None);
    let failed = two_dials(&mut none);
    drop(none);
    assert!(rt; told == ('r', Some(DialEnd::Failed)) && is_gone);
    assert!(rt; failed == ('!', Some(DialEnd::Failed)));
    Ok(())
}

/// Passes a gate that threads may share.
fn pass<R: Wait, G: Gate + Sync>(rt: &R, gate: &G) -> bool {
    gate.pass(rt, 0, 1);
    true
}

#[test]
fn an_open_gate_lets_pass(rt: HostRuntime) {
    assert!(rt; pass(&rt, &OpenGate));
}
