//! Shows schedules in words: the opening numbers, then a line for each call or the fault that ends it.
//!
//! It names files as arguments, `-` for standard input; without arguments it reads standard input.
#![tactic(auto)]

use schedule::call::Opening;
use schedule::fault::{Fault, Placed};
use schedule::reader::Reader;
use std::io::Read;
use std::{env, fs, io};
use thiserror::Error;

mod words;

use words::Line;

/// All bytes of a file, or of standard input where its name is `-`.
fn read_bytes(rt: &HostRuntime, name: &str) -> io::Result<Vec<u8>> {
    if name != "-" {
        return fs::read(rt, name);
    }
    let mut bytes = Vec::new(rt.alloc());
    rt.stdin().read_to_end(&mut bytes)?;
    Ok(bytes)
}

/// Why no further record of a schedule is shown.
#[derive(Debug, Drop, Error)]
enum Stop {
    #[error("{0}")]
    Faulty(#[from] Placed<Fault>),
    #[error(transparent)]
    Output(#[from] io::Error),
}

/// The opening numbers, and then the calls, one a line.
fn show_records(rt: &HostRuntime, bytes: &[u8]) -> Result<(), Stop> {
    let mut reader = Reader::new(bytes);
    let Opening {
        cells,
        workers,
        first_round,
    } = reader.opening()?;
    println!(rt; "cells {cells}, workers {workers}, first round {first_round}")?;
    loop {
        let byte = reader.place();
        let Some(call) = reader.next_call()? else {
            return Ok(());
        };
        let record = reader.records();
        rt.println(Line { record, byte, call })?;
    }
}

fn show_schedule(rt: &HostRuntime, bytes: &[u8]) -> io::Result<()> {
    match show_records(rt, bytes) {
        Err(Stop::Faulty(placed)) => println!(rt; "{placed}: {}", placed.fault),
        Err(Stop::Output(error)) => Err(error),
        Ok(()) => Ok(()),
    }
}

fn show_file(rt: &HostRuntime, name: &str) -> io::Result<()> {
    let bytes = read_bytes(rt, name)?;
    show_schedule(rt, bytes.as_slice())
}

fn show_all(rt: &HostRuntime) -> anyhow::Result<()> {
    let mut names = env::args(rt)?.skip(1).peekable();
    if names.peek().is_none() {
        show_file(rt, "-")?;
    }
    for name in names {
        println!(rt; "{name}")?;
        show_file(rt, name.as_str())?;
    }
    Ok(())
}

fn main(rt: HostRuntime) -> anyhow::Result<()> {
    show_all(&rt)
}
