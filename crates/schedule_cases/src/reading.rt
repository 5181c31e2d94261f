use schedule::call::{Call, Children};
use schedule::fault::{Fault, Placed};
use schedule::reader::Reader;
use std::process::Abort;
use std::test::Fail;

/// Reads all calls of a schedule, or stops at its first fault.
fn read_all(bytes: &[u8]) -> Result<(), Placed<Fault>> {
    let mut reader = Reader::new(bytes);
    while let Some(_) = reader.next_call()? {}
    Ok(())
}

/// A schedule's bytes, and the fault's number, record and byte. By number, so that the cases test the
/// numbers too.
struct Case<'a> {
    bytes: &'a [u8],
    number: u8,
    record: u16,
    byte: u16,
}

fn check_faults(rt: &impl Abort, cases: &[Case<'_>]) -> Result<(), Fail> {
    for case in cases {
        let placed = read_all(case.bytes).err().ok_or("no fault")?;
        assert_eq!(rt; placed.fault.number(), case.number);
        assert_eq!(rt; placed.record, case.record);
        assert_eq!(rt; placed.byte, case.byte);
    }
    Ok(())
}

#[test]
fn each_fault_has_its_place(rt: HostRuntime) -> Result<(), Fail> {
    check_faults(
        &rt,
        &[
            Case {
                bytes: b"",
                number: 20,
                record: 0,
                byte: 0,
            },
            Case {
                bytes: b"\x03\x02\x00\x00\x00",
                number: 20,
                record: 0,
                byte: 0,
            },
            Case {
                bytes: b"\x03\x02\x00\x00\x00\x01\x07",
                number: 21,
                record: 1,
                byte: 6,
            },
            Case {
                bytes: b"\x03\x02\x00\x00\x00\x01\x07\x01\x01",
                number: 21,
                record: 1,
                byte: 6,
            },
            Case {
                bytes: b"\x03\x02\x00\x00\x00\x01\x17\x04\x01\x02\x02\x01",
                number: 21,
                record: 1,
                byte: 6,
            },
            Case {
                bytes: b"\x03\x02\x00\x00\x00\x01\x03\x0a\x01\x21\x0b\x00",
                number: 21,
                record: 2,
                byte: 9,
            },
            Case {
                bytes: b"\x03\x02\x00\x00\x00\x01\x07\x0c\x01\x01",
                number: 22,
                record: 1,
                byte: 6,
            },
            Case {
                bytes: b"\x03\x02\x00\x00\x00\x01\x07\x00\x01\x01",
                number: 22,
                record: 1,
                byte: 6,
            },
            Case {
                bytes: b"\x03\x02\x00\x00\x00\x01\x06\x01\x01\x01",
                number: 23,
                record: 1,
                byte: 6,
            },
            Case {
                bytes: b"\x03\x02\x00\x00\x00\x01\x47\x01\x01\x01",
                number: 23,
                record: 1,
                byte: 6,
            },
            Case {
                bytes: b"\x03\x02\x00\x00\x00\x01\x05\x01\x01",
                number: 23,
                record: 1,
                byte: 6,
            },
            Case {
                bytes: b"\x03\x02\x00\x00\x00\x01\x07\x02\x01\x01",
                number: 23,
                record: 1,
                byte: 6,
            },
            Case {
                bytes: b"\x03\x02\x00\x00\x00\x01\x03\x0a\x01\x03\x0a\x01",
                number: 23,
                record: 2,
                byte: 9,
            },
            Case {
                bytes: b"\x03\x02\x00\x00\x00\x01\x17\x04\x01\x02\x00",
                number: 24,
                record: 1,
                byte: 6,
            },
            Case {
                bytes: b"\x03\x02\x00\x00\x00\x01\x17\x04\x01\x02\x09\x01\x01\x01\x01\x01\x01\x01\x01\x01",
                number: 24,
                record: 1,
                byte: 6,
            },
        ],
    )
}

#[test]
fn the_first_failing_test_gives_the_fault(rt: HostRuntime) -> Result<(), Fail> {
    check_faults(
        &rt,
        &[
            // a wrong top bit before a missing operation
            Case {
                bytes: b"\x03\x02\x00\x00\x00\x01\x80",
                number: 23,
                record: 1,
                byte: 6,
            },
            // an unknown operation before a map that fits none
            Case {
                bytes: b"\x03\x02\x00\x00\x00\x01\x3f\x0c",
                number: 22,
                record: 1,
                byte: 6,
            },
            // a map that does not fit before a missing field
            Case {
                bytes: b"\x03\x02\x00\x00\x00\x01\x07\x02",
                number: 23,
                record: 1,
                byte: 6,
            },
            // a missing field before a needless worker
            Case {
                bytes: b"\x03\x02\x00\x00\x00\x01\x03\x0a\x01\x07\x01\x01",
                number: 21,
                record: 2,
                byte: 9,
            },
            // missing cells of a list before its count
            Case {
                bytes: b"\x03\x02\x00\x00\x00\x01\x17\x04\x01\x02\x09\x01",
                number: 21,
                record: 1,
                byte: 6,
            },
            // a needless worker before the count of a list
            Case {
                bytes: b"\x03\x02\x00\x00\x00\x01\x03\x0a\x01\x17\x04\x01\x02\x00",
                number: 23,
                record: 2,
                byte: 9,
            },
        ],
    )
}

#[test]
fn calls_come_in_turn(rt: HostRuntime) -> Result<(), Fail> {
    let mut reader = Reader::new(
        b"\x03\x02\xff\xff\xff\xfe\x17\x04\x01\x03\x02\x01\x02\x21\x0b\x03\xe8",
    );
    assert_eq!(rt; reader.opening()?.first_round, 4294967294);
    let list = Children::of(2, b"\x01\x02");
    assert_eq!(rt;
        reader.next_call()?,
        Some(Call::Make {
            worker: 1,
            cell: 3,
            list,
        })
    );
    assert_eq!(rt;
        reader.next_call()?,
        Some(Call::Run {
            worker: 1,
            steps: 1000,
        })
    );
    assert_eq!(rt; reader.next_call()?, None);
    Ok(())
}
