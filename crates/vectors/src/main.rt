//! Reads many schedules, one a line as hex text after its name, and says of each how many calls it has or
//! which fault; what is read is written again and compared.
#![tactic(auto)]

use anyhow::anyhow;
use hex::FromHex;
use schedule::call::CallRecord;
use schedule::whole::{ReadError, Schedule, read};
use schedule::write::write;
use std::alloc::{AllocError, Global};

/// The bytes of hex words, two digits a byte. A loop and no `try_collect`: each item would have room for a
/// whole error.
fn bytes_of(heap: Global, text: &str) -> anyhow::Result<Vec<u8>> {
    let mut bytes = Vec::new(heap);
    for word in text.split(' ') {
        match <[u8; 1]>::from_hex(word) {
            Ok(byte) => bytes.push(byte[0])?,
            Err(_) => return Err(anyhow!("not a hex byte")),
        }
    }
    Ok(bytes)
}

/// Whether the schedule, written again, has the bytes that it was read from.
fn writes_back(heap: Global, schedule: &Schedule, bytes: &[u8]) -> Result<bool, AllocError> {
    let calls = schedule.calls.iter().copied();
    let records: Vec<CallRecord> = calls.map(CallRecord::from).collect(heap)?;
    let mut strip = vec![in heap; 0; 4096]?;
    match write(schedule.opening, records.as_slice(), strip.as_mut_slice()) {
        Ok(length) => Ok(strip.as_slice().get(..length) == Some(bytes)),
        Err(_) => Ok(false),
    }
}

fn report(rt: &HostRuntime, name: &str, bytes: &[u8]) -> anyhow::Result<()> {
    match read(rt.alloc(), bytes) {
        Ok(schedule) => {
            let calls = schedule.calls.len();
            let same = if writes_back(rt.alloc(), &schedule, bytes)? {
                "the same"
            } else {
                "otherwise"
            };
            println!(rt; "{name} {calls} calls, written back {same}")?;
        }
        Err(ReadError::Faulty(placed)) => println!(rt; "{name} {placed}")?,
        // The program's own words.
        Err(ReadError::Memory) => return Err(anyhow!("no memory")),
    }
    Ok(())
}

fn report_line(rt: &HostRuntime, line: &str) -> anyhow::Result<()> {
    let Some((name, text)) = line.split_once(' ') else {
        return Err(anyhow!("a line has a name and hex bytes"));
    };
    let bytes = bytes_of(rt.alloc(), text)?;
    report(rt, name, bytes.as_slice())
}

fn report_all(rt: &HostRuntime) -> anyhow::Result<()> {
    for line in rt.lines(rt.alloc()) {
        let line = line?;
        report_line(rt, line.as_str())?;
    }
    Ok(())
}

fn main(rt: HostRuntime) -> anyhow::Result<()> {
    report_all(&rt)
}
