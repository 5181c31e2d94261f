use schedule::call::{Call, CallRecord, Children, Opening};
use schedule::fault::Fault;
use schedule::whole::read;
use schedule::write::write;
use std::test::Fail;

const OPENING: Opening = Opening {
    cells: 3,
    workers: 2,
    first_round: 1,
};

fn step() -> CallRecord {
    CallRecord::from(Call::Step { worker: 1 })
}

fn make(count: u8) -> CallRecord {
    let list = Children::of(count, b"\x01\x02\x01\x02\x01\x02\x01\x02");
    CallRecord::from(Call::Make {
        worker: 1,
        cell: 3,
        list,
    })
}

/// A call whose operation is none of the eleven.
fn unknown(operation: u8) -> CallRecord {
    CallRecord {
        operation,
        ..step()
    }
}

#[test]
fn refusals_come_in_order_and_leave_the_strip(rt: HostRuntime) {
    let mut strip = [7; 16];
    assert_eq!(rt;
        write(OPENING, &[step(), unknown(12), make(9)], &mut strip),
        Err(Fault::UnknownOperation)
    );
    assert_eq!(rt;
        write(OPENING, &[make(0), unknown(0)], &mut strip),
        Err(Fault::ListCount)
    );
    assert_eq!(rt;
        write(OPENING, &[make(9)], &mut strip),
        Err(Fault::ListCount)
    );
    assert_eq!(rt;
        write(OPENING, &[make(8)], &mut strip),
        Err(Fault::ShortStrip)
    );
    assert_eq!(rt; strip, [7; 16]);
}

#[test]
fn bytes_after_the_schedule_stay(rt: HostRuntime) {
    let mut strip = [7; 16];
    assert_eq!(rt; write(OPENING, &[step(), step()], &mut strip), Ok(11));
    assert_eq!(rt; strip, [3, 2, 0, 0, 0, 1, 3, 10, 1, 1, 10, 7, 7, 7, 7, 7]);
}

#[test]
fn the_longest_schedule_has_4096_bytes(rt: HostRuntime) -> Result<(), Fail> {
    let heap = rt.alloc();
    let mut strip = vec![in heap; 0; 5000]?;
    let mut records = vec![in heap; step(); 2044]?;
    assert_eq!(rt;
        write(OPENING, records.as_slice(), strip.as_mut_slice()),
        Ok(4095)
    );
    records.push(step())?;
    assert_eq!(rt;
        write(OPENING, records.as_slice(), strip.as_mut_slice()),
        Err(Fault::Length)
    );
    Ok(())
}

#[test]
fn what_is_written_reads_back(rt: HostRuntime) -> Result<(), Fail> {
    let mut strip = [0; 64];
    let n = write(OPENING, &[make(8), step()], &mut strip)?;
    assert!(rt; n <= 64);
    let schedule = read(rt.alloc(), &strip[0..n])?;
    assert_eq!(rt; schedule.opening.cells, 3);
    assert_eq!(rt; schedule.calls.len(), 2);
    Ok(())
}
