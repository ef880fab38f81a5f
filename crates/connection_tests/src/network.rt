//! A harbor at a port of this machine, and a dial to it.

use connections::{Dial, Door, Harbor};
use dt_base::{Failed, List, Sink, Source};
use sockets::{TcpDial, TcpHarbor};
use std::test::Fail;

/// The ports that are tried, one after the other where one is taken.
const PORTS: [u16; 5] = [20_417, 23_981, 28_613, 31_207, 36_769];

/// Opens one door of two turns at the first port that is free.
fn open<H: Harbor>(harbor: &mut H) -> Option<(u16, List<H::Door>)> {
    for port in PORTS {
        if let Ok(doors) = harbor.open(port, 1, 2) {
            return Some((port, doors));
        }
    }
    None
}

/// Whether the bytes are those that come first.
fn gives<S: Source>(source: &mut S, bytes: &[u8]) -> bool {
    let mut into = [0; 16];
    match source.read(&mut into) {
        Ok(count) => into.get(..count) == Some(bytes),
        Err(_) => false,
    }
}

/// Whether a question and an answer pass, and the client then finds the end of the stream.
fn converses<D: Door, C: Dial>(door: &mut D, dial: &mut C, port: u16) -> Option<bool> {
    let mut near = dial.dial("127.0.0.1", port).ok()?;
    let asked = near.write(b"question") == Ok(8);
    let Ok(Some(mut far)) = door.next() else {
        dial.done(near);
        return None;
    };
    let heard = gives(&mut far, b"question");
    let answered = far.write(b"answer") == Ok(6);
    let heard_back = gives(&mut near, b"answer");
    // The client goes first, so that the door does not wait for it.
    dial.done(near);
    let ended = gives(&mut far, b"");
    door.done(far);
    Some(asked && heard && answered && heard_back && ended)
}

#[test]
fn a_dial_reaches_a_door(rt: HostRuntime) -> Result<(), Fail> {
    let mut harbor = TcpHarbor::new(rt.alloc(), &rt);
    let mut dial = TcpDial::new(&rt);
    let (port, doors) = open(&mut harbor).ok_or("no port is free")?;
    let mut told = [None; 2];
    let mut ended = false;
    for mut door in doors.items {
        told = [
            converses(&mut door, &mut dial, port),
            converses(&mut door, &mut dial, port),
        ];
        ended = matches!(door.next(), Ok(None));
    }
    assert!(rt; told == [Some(true); 2] && ended);
    Ok(())
}
