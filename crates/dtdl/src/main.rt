//! The command `dtdl`: it makes the real objects, runs one command and ends with its status.
#![tactic(auto)]

use dt_base::{FileShelf, StdSink, StdSource};
use dtdl_cmd::{Status, run_ask, run_plain};
use sockets::TcpDial;
use std::alloc::{AllocError, Global};
use std::io::ErrorKind;
use std::process::ExitCode;
use std::rt::Env;
use std::{env, io};

/// The words after the program's name. An error of another kind than `OutOfMemory` means that one of them
/// is not UTF-8.
fn words(rt: &(impl AllocGlobal + Env), alloc: Global) -> io::Result<Vec<String>> {
    let mut words = Vec::new(alloc);
    for word in env::args(rt)?.skip(1) {
        words.push(word)?;
    }
    Ok(words)
}

/// Whether a server is to be asked.
fn asks(words: &[String]) -> bool {
    !words.is_empty() && words[0].as_str() == "ask"
}

fn main(rt: HostRuntime) -> ExitCode {
    let words = match words(&rt, rt.alloc()) {
        Ok(words) => words,
        Err(error) if error.kind() == ErrorKind::OutOfMemory => {
            return ExitCode::from(Status::OutOfMemory.number());
        }
        // Words that are not UTF-8 are those of no command, as no words are.
        Err(_) => Vec::new(rt.alloc()),
    };
    let mut input = StdSource::new(rt.stdin());
    let mut output = StdSink::new(rt.stdout());
    let status = if asks(&words) {
        let mut dial = TcpDial::new(&rt);
        run_ask(rt.alloc(), &words, &mut input, &mut output, &mut dial)
    } else {
        let mut shelf = FileShelf::new(&rt);
        run_plain(rt.alloc(), &words, &mut input, &mut output, &mut shelf)
    };
    ExitCode::from(status.number())
}
